// Judge: reads a log from standard input and prints the order that explains every read, with the table that it leaves; or that there is none; or
// that the log is refused (document 01). What it prints is `judge_text` of the bytes that came: `judging` proves that.
//
// The buffer holds more than any log. Of longer input the first 4,096 bytes are judged, and they are refused with the number that the whole calls
// for (`judge_prefix` in `report`). No input is a log of 0 bytes, 'refused 1'. Where a read fails, what came before it is judged.
#![tactic(auto)]

// the numbers of the standard streams
const STDIN: i32 = 0;

const STDOUT: i32 = 1;

fn main() {
    let mut input = io::buffer();
    let n = io::read_full(STDIN, &mut input);
    let mut text = [0u8; 1024];
    let r = judging::judge(&input[..n], &mut text);
    io::write_all(STDOUT, &text[..r]);
}
