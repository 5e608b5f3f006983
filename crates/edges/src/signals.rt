// Signals: the packings of 01, byte borders, and what lies behind the bytes.
use crate::show::Pairs;

pub(crate) fn packings(rt: HostRuntime) {
    let _ = println!(rt;
        "signals put into bytes of FF: width, offset, value, the bytes, what is read back"
    );
    scalar(rt, 12, 4, 0xABC, 2);
    scalar(rt, 16, 4, 0x1234, 3);
    scalar(rt, 1, 0, 0, 1);
    scalar(rt, 1, 7, 0, 1);
    scalar(rt, 8, 0, 0x5A, 1);
    scalar(rt, 10, 7, 0x155, 3);
    scalar(rt, 16, 15, 0, 4);
    scalar(rt, 3, 2, 0xFFFA, 1);
    scalar(rt, 16, 12, 0, 2);
    scalar(rt, 17, 0, 0, 3);
    scalar(rt, 0, 3, 0, 1);
    scalar(rt, 16, 24, 0, 3);
    scalar(rt, 16, 18446744073709551615, 0, 3);
    let _ = println!(rt;
        "arrays put into bytes of FF: offset, values, the bytes, what is read back"
    );
    array(rt, 8, b"\x01\x02");
    array(rt, 0, b"\x01\x02\x03\x04");
    array(rt, 16, b"\xAA\xBB\xCC");
    array(rt, 4, b"\x12\x34");
}

// A scalar put into n bytes of FF, four at most, and read back.
fn scalar(rt: HostRuntime, width: usize, offset: usize, value: u16, n: usize) {
    if let Some(bytes) = [255u8; 4].get_mut(..n) {
        signal::put(bytes, offset, width, value);
        let back = signal::get(bytes, offset, width);
        let _ = println!(rt; "{width} {offset} {value:04X}:{}, {back:04X}", Pairs(bytes));
    }
}

// An array of four bytes at most put into four bytes of FF, and read back.
fn array(rt: HostRuntime, offset: usize, values: &[u8]) {
    let mut bytes = [255u8; 4];
    if let Some(back) = [0u8; 4].get_mut(..values.len()) {
        signal::put_array(&mut bytes, offset, values);
        signal::get_array(&bytes, offset, back);
        let _ = println!(rt;
            "{offset},{}:{},{}",
            Pairs(values),
            Pairs(&bytes),
            Pairs(back)
        );
    }
}
