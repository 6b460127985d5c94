// Lines of output: a text and numbers behind it.

// Text.
pub fn text(s: &[u8]) {
    io::write_all(1, s);
}

// A space and a number.
pub fn number<T: Into<u64>>(n: T) {
    io::write_all(1, b" ");
    io::print_decimal(1, n.into());
}

// A space and a number for each of a list.
pub fn numbers<T: Copy + Into<u64>>(list: &[T]) {
    for n in list {
        number(*n);
    }
}

// A space and yes or no.
pub fn yes_no(b: bool) {
    text(if b { b" yes" } else { b" no" });
}

// The end of a line.
pub fn end() {
    text(b"\n");
}

// A line of a text and numbers.
pub fn line<T: Copy + Into<u64>>(s: &[u8], list: &[T]) {
    text(s);
    numbers(list);
    end();
}
