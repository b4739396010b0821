// A run in chunks.
ghost use Rattle.std.specs.Prelude.{◌≡◌, cond, eqb, length};
ghost use Rattle.kept.specs.Layout.{state_size};
ghost use Rattle.feed.specs.Answers.{start_number, start_leaves, room_for, feed_number, feed_leaves, feed_writes, end_number, end_leaves, end_writes, place_told, steps_told};

// The bytes of the state of a run that is fed.
#[unsafe(no_mangle)]
pub extern "C" fn yb_feed_size() -> u64
    ensures { result ≡ state_size }
{
    kept::SIZE as u64
}

// The state before any byte of a file: 0, or 10 for another length.
#[unsafe(no_mangle)]
pub extern "C" fn yb_feed_start(state: &mut [u8]) -> u32
    ensures value { result ≡ start_number state.old }
    ensures state_after { state.new ≡ start_leaves state.old }
{
    feed::start(state) as u32
}

// A chunk: 0, the records of the steps that it completes at the room's start, how many bytes they
// are, and the next state; or 10, the number of an earlier refusal, the fault's or 11.
#[unsafe(no_mangle)]
pub extern "C" fn yb_feed(state: &mut [u8], chunk: &[u8], room: &mut [u8], written: &mut u64) -> u32
    ensures value { result ≡ feed_number state.old chunk.now (length room.old) }
    ensures state_after { state.new ≡ feed_leaves state.old chunk.now (length room.old) }
    ensures room_after { room.new ≡ feed_writes state.old chunk.now room.old }
    ensures written_after { written.new ≡ cond (eqb result 0) (room_for state.old chunk.now) written.old }
{
    match feed::feed(state, chunk, room) {
        Ok(bytes) => {
            *written = bytes;
            0
        }
        Err(number) => number as u32,
    }
}

// The end of a file: 0, the end record, its bytes, and a state that is over; or 10, the number of an
// earlier refusal, 1, 8 or 11.
#[unsafe(no_mangle)]
pub extern "C" fn yb_feed_end(state: &mut [u8], room: &mut [u8], written: &mut u64) -> u32
    ensures value { result ≡ end_number state.old (length room.old) }
    ensures state_after { state.new ≡ end_leaves state.old (length room.old) }
    ensures room_after { room.new ≡ end_writes state.old room.old }
    ensures written_after { written.new ≡ cond (eqb result 0) 7 written.old }
{
    match feed::end(state, room) {
        Ok(bytes) => {
            *written = bytes;
            0
        }
        Err(number) => number as u32,
    }
}

// The bytes that feeding a chunk would write, 0 if it would be refused.
#[unsafe(no_mangle)]
pub extern "C" fn yb_feed_room(state: &[u8], chunk: &[u8]) -> u64
    ensures { result ≡ room_for state.now chunk.now }
{
    feed::room(state, chunk)
}

// The place of a state, 0 for bytes that are none.
#[unsafe(no_mangle)]
pub extern "C" fn yb_feed_place(state: &[u8]) -> u64
    ensures { result ≡ place_told state.now }
{
    feed::place(state)
}

// The steps of a state, 0 for bytes that are none.
#[unsafe(no_mangle)]
pub extern "C" fn yb_feed_steps(state: &[u8]) -> u32
    ensures { result ≡ steps_told state.now }
{
    feed::steps(state)
}
