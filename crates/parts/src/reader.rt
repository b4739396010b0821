ghost use Rattle.std.specs.Prelude.{◌≡◌, ◌+◌};
ghost use Rattle.parts.specs.Parts.{part_start, part_size, PartOf};

use super::parts;

// Walks the lent file and keeps its place.
#[derive(Clone, Copy)]
pub struct Reader<'a> {
    pub file: &'a [u8],
    pub place: u64,
}

// The value bytes of the field at the reader's place, as they lie in the file: those that are there, or an empty part.
pub fn value<'a>(r: Reader<'a>) -> &'a [u8]
    ensures { PartOf r.entry.file r.entry.place result }
{
    parts::part(r.file, r.place)
}

// The reader past that field.
pub fn past<'a>(r: Reader<'a>) -> Reader<'a>
    ensures { (result.file ≡ r.entry.file) × (result.place ≡ part_start r.entry.file.now r.entry.place + part_size r.entry.file.now r.entry.place) }
{
    Reader {
        file: r.file,
        place: parts::part_end(r.file, r.place),
    }
}

// The value bytes of the field at a place of a lent file: what `value` gives, for a caller that keeps no reader.
pub fn value_at<'a>(file: &'a [u8], place: u64) -> &'a [u8]
    ensures { PartOf file.entry place result }
{
    value(Reader { file, place })
}

// The place past that field: where `past` stands, for a caller that keeps no reader.
pub fn place_past(file: &[u8], place: u64) -> u64
    ensures { result ≡ part_start file.now place + part_size file.now place }
{
    let next = past(Reader { file, place });
    next.place
}
