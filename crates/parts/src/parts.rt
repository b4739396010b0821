ghost use Rattle.std.specs.Prelude.{◌≡◌, ◌≤◌, ◌+◌, length};
ghost use Rattle.parts.specs.Parts.{head_there, part_start, part_size, PartOf};

// The three bytes of tag and length are there.
fn head_there(size: u64, place: u64) -> bool
    ensures { result ≡ head_there size place }
{
    if size < 3 {
        return false;
    }
    place <= size - 3
}

// Where the value bytes of the field at a place begin.
pub fn part_start(file: &[u8], place: u64) -> u64
    ensures { result ≡ part_start file.now place }
{
    let size = file.len() as u64;
    if head_there(size, place) {
        return place + 3;
    }
    place.min(size)
}

// How many of them are there.
pub fn part_size(file: &[u8], place: u64) -> u64
    ensures { result ≡ part_size file.now place }
{
    let size = file.len() as u64;
    if !head_there(size, place) {
        return 0;
    }
    let wanted = octets::u16_at(file, (place as usize) + 1) as u64;
    wanted.min(size - (place + 3))
}

// The value bytes of the field at a place, as they lie in the file.
pub fn part<'a>(file: &'a [u8], place: u64) -> &'a [u8]
    ensures { PartOf file.entry place result }
{
    let start = part_start(file, place) as usize;
    let size = part_size(file, place) as usize;
    &file[start..start + size]
}

// The place past that field.
pub fn part_end(file: &[u8], place: u64) -> u64
    ensures { result ≡ part_start file.now place + part_size file.now place }
{
    let start = part_start(file, place);
    start + part_size(file, place)
}
