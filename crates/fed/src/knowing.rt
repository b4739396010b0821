ghost use Rattle.std.specs.Prelude.{◌≡◌, ℕ, cond, length};
ghost use Rattle.feed.specs.Answers.{written_by, end_leaves, end_writes};
ghost use Rattle.fed.specs.Known.{known_end, left, Knows};

use stick::Known;
use whole::Refusal;

// What is known once a run was ended: what its end gave, and the state that it left. A state that is
// none, and room too short for the end record, say nothing of the file.
fn ended(end: Result<u64, u8>, state: &[u8]) -> Known
    ensures { (n : ℕ) → end ≡ written_by n 7 → result ≡ known_end n state.now }
{
    match end {
        Ok(_) => Known::Complete(feed::steps(state)),
        Err(number) if (number == 10) | (number == 11) => Known::NotKnown,
        Err(number) => Known::Refused(Refusal {
            number,
            place: feed::place(state),
            steps: feed::steps(state),
        }),
    }
}

// What is known of a file that was fed to a state. Where all of it was fed, or a chunk was refused,
// the run is ended: of a complete file the end record then stands at the room's start. Otherwise the
// run goes on, and nothing is known.
pub fn known(state: &mut [u8], room: &mut [u8], all: bool) -> Known
    ensures knows { Knows state.old (length room.old) all result }
    ensures state_after { state.new ≡ cond (left state.old all) state.old (end_leaves state.old (length room.old)) }
    ensures room_after { room.new ≡ cond (left state.old all) room.old (end_writes state.old room.old) }
{
    if !all & (feed::own_number(state) == 0) {
        return Known::NotKnown;
    }
    ended(feed::end(state, room), state)
}
