ghost use Rattle.std.specs.Prelude.{◌≡◌, length};
ghost use Rattle.tally.specs.Tally.{list_of, how_many};
ghost use Rattle.tally.specs.Posts.{Few};

use super::Figures;

// How many numbers the figures are.
pub const HOW_MANY: usize = 17;

// The figures as a list.
pub fn put(f: Figures, list: &mut [i64])
    requires few { Few f }
    requires list_len { length list.old ≡ how_many }
    ensures { list.new ≡ list_of f }
{
    let m = f.measure;
    let n = f.net;
    let all = [
        f.steps as i64,
        f.missing as i64,
        m.least,
        m.least_step as i64,
        m.most,
        m.most_step as i64,
        m.outside as i64,
        n.least,
        n.least_step as i64,
        n.most,
        n.most_step as i64,
        n.outside as i64,
        f.store as i64,
        f.store_step as i64,
        f.loss_mj as i64,
        f.loss_j as i64,
        f.not_met as i64,
    ];
    list.copy_from_slice(&all);
}
