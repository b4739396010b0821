// What a refusal is called.
pub fn name(number: u8) -> &'static str {
    match number {
        1 => "field cut short",
        2 => "unknown tag",
        3 => "wrong length",
        4 => "field out of order",
        5 => "value out of range",
        6 => "reading not usable",
        7 => "wrong step count",
        8 => "end field missing",
        9 => "bytes after the end",
        _ => "too many bytes or steps",
    }
}
