ghost use Rattle.std.specs.Prelude.{◌≡◌, min, ◌≤◌};
ghost use Rattle.whole.specs.Largest.{leg_of};
ghost use Rattle.whole.specs.Circle.{watts_in, vars_in};

use super::sign;

// The largest whole x with x * x + y * y <= s * s, bit by bit from the top; 0 where y is above s.
// In the loop low is what is found, raised by the k bits to come, and left what its square leaves.
pub fn leg(s: u32, y: u32) -> u32
    ensures { result ≡ leg_of s y }
{
    if s < y {
        return 0;
    }
    if y == 0 {
        return s;
    }
    let radius = s as u64;
    let side = y as u64;
    let mut left = radius * radius - side * side;
    let bits = (65 - u64::leading_zeros(left)) / 2;
    let mut low: u64 = 0;
    for k in (0..bits).rev() {
        let at = 2 * k;
        let more = low + (1u64 << at);
        let fits = (more <= left) as u64;
        left -= more * fits;
        low = low / 2 + (fits << at);
    }
    low as u32
}

// The smaller of x and the leg beside y. Where x and y lie in the circle no leg is sought.
pub fn beside(s: u32, y: u32, x: u32) -> u32
    ensures { result ≡ min x (leg_of s y) }
{
    let radius = s as u64;
    let side = y as u64;
    let size = x as u64;
    if side <= radius {
        if size * size <= radius * radius - side * side {
            return x;
        }
    }
    let most = leg(s, y);
    if x <= most { x } else { most }
}

// The watts of an inverter with radius s: what is asked, at most s and, where vars come first, at
// most what they leave of the circle.
pub fn watts_in(s: u32, priority: u8, v: u32, asked: u32) -> u32
    ensures { result ≡ watts_in s priority v asked }
{
    let p = asked.min(s);
    if priority == 1 {
        return beside(s, v, p);
    }
    p
}

// The vars beside its watts, v at most and with their sign.
pub fn vars_in(s: u32, below: bool, v: u32, watts: u32) -> i32
    requires { v ≤ 100000000 }
    ensures { result ≡ vars_in s below v watts }
{
    sign::signed32(below, beside(s, watts, v))
}
