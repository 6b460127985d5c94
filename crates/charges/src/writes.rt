// Logs of a few writes, each a transaction of its own: without reads and times the order is that of the log.
use trial::log::Bytes;

// A cabinet writes a value to a key.
#[derive(Clone, Copy)]
pub struct Write {
    pub cabinet: u8,
    pub key: u8,
    pub value: u16,
}

pub(crate) fn by(cabinet: u8, key: u8, value: u16) -> Write {
    Write {
        cabinet,
        key,
        value,
    }
}

// The log of at most 32 writes.
pub(crate) fn log_of(list: &[Write]) -> Bytes {
    let n = (list.len() % 33) as u16;
    let mut out = Bytes::new();
    out.push_pair(n);
    out.push_pair(n);
    for (t, w) in (0..n).zip(list) {
        out.push_entry(w.cabinet, 1, t);
    }
    for w in list {
        out.push_body(1, w.key, w.value);
    }
    out
}
