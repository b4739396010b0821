ghost use Rattle.std.specs.Prelude.{◌≡◌, ◌≤◌, pos, nat_abs};
ghost use Rattle.energy.specs.Limits.{limited_vars, held_size, vars_of};

use unit::Unit;

// The size of the var request, at most the limit for its direction.
pub fn limited(u: Unit) -> u32
    ensures { result ≡ limited_vars u }
{
    let size = u.var_request.unsigned_abs();
    if whole::below_zero32(u.var_request) {
        return size.min(u.absorb);
    }
    size.min(u.provide)
}

// The size of a request as the unit holds it: limited to S and, under var priority, to what the
// vars leave of the circle.
pub fn held(u: Unit, request: i32) -> u32
    ensures { result ≡ held_size u request }
{
    whole::watts_in(u.kva, u.priority, limited(u), request.unsigned_abs())
}

// The most that a request is held at: one of S watts.
pub fn most(u: Unit) -> u32
    ensures { result ≡ held_size u (pos u.kva) }
{
    whole::watts_in(u.kva, u.priority, limited(u), u.kva)
}

// The vars beside the watts: the request's sign, and the smaller of its size and the circle's leg.
pub fn vars(u: Unit, watts: i32) -> i32
    requires { nat_abs u.var_request ≤ 100000000 }
    ensures { result ≡ vars_of u watts }
{
    let below = whole::below_zero32(u.var_request);
    whole::vars_in(u.kva, below, limited(u), watts.unsigned_abs())
}
