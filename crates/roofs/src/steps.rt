ghost use Rattle.std.specs.Prelude.{◌≡◌, false, ◌+◌, ◌*◌, ◌≤◌, length, replicate};
ghost use Rattle.octets.specs.BigEndian.{laid};
ghost use Rattle.parts.specs.Header.{header};
ghost use Rattle.lead.specs.Lead.{Modest};
ghost use Rattle.guided.specs.Roofs.{lit_step, vars_kept};
ghost use Rattle.guided.specs.Units.{Guiding};
ghost use Rattle.solar.specs.Posts.{Roofed, Shining};
ghost use Rattle.fields.specs.Fields.{inverter_at};
ghost use Rattle.roofs.specs.Roofs.{own_vars, on_after, vars_after, roofs_by};
ghost use Rattle.records.specs.Records.{roof_record_bytes};
ghost use Rattle.roofs.specs.Posts.{RoofsThere, VarsHeld, roof_here, roofs_here};

use guided::Shone;
use lead::Lead;
use records::ROOF_RECORD_BYTES;
use solar::{Given, Sun};
use stick::ROOF_BYTES;

// The inverter whose field stands at a place gives what its step gives, by what leads it and the vars
// last requested of it. One that is off stays so in the dark, whatever leads it.
fn light(bytes: &[u8], at: usize, on: bool, s: Sun, l: Lead, last: i32) -> Shone
    requires roofed { Roofed (inverter_at bytes.now (at + header)) bytes.now (at + 25) (at + 157) }
    requires at_in_bounds { at + 286 ≤ length bytes.now }
    requires shining { Shining s }
    requires guiding { Guiding l last }
    ensures given_value { result.given ≡ lit_step l (roof_here bytes.now at) last on s }
    ensures vars_value { result.vars ≡ vars_kept l (roof_here bytes.now at) last on s }
{
    let v = fields::inverter_at(bytes, at + 3);
    if !on & (s.irradiance == 0) {
        let asked = lead::requested(l, v.var_request, last, v.kva, 0);
        return Shone {
            given: Given {
                on: false,
                watts: 0,
                vars: 0,
                dc: 0,
            },
            vars: lead::kept(l, last, asked),
        };
    }
    guided::light(v, bytes, at + 25, at + 157, on, s, l, last)
}

// One step of every inverter: which are on afterwards, the vars last requested, and their records.
pub fn step(
    bytes: &[u8],
    first: usize,
    k: u32,
    s: Sun,
    l: Lead,
    on: &mut [bool],
    vars: &mut [i32],
    room: &mut [u8],
    at: usize,
)
    requires roofs_there { RoofsThere bytes.now first (length on.old) }
    requires vars_held { VarsHeld (length on.old) vars.old }
    requires shining { Shining s }
    requires modest { Modest l }
    requires on_in_bounds { at + roof_record_bytes * length on.old ≤ length room.old }
    ensures on_after { on.new ≡ on_after (roofs_here bytes.now first (length on.old)) l s on.old vars.old }
    ensures vars_after { vars.new ≡ vars_after (roofs_here bytes.now first (length on.old)) l s on.old vars.old }
    ensures vars_held_2 { VarsHeld (length on.old) vars.new }
    ensures room_after { room.new ≡ laid room.old at
        (roofs_by (roofs_here bytes.now first (length on.old)) l k s on.old vars.old) }
{
    for i in 0..on.len() {
        let g = light(bytes, first + ROOF_BYTES * i, on[i], s, l, vars[i]);
        let o = g.given;
        let kept = g.vars;
        on[i] = o.on;
        vars[i] = kept;
        records::put_roof(room, at + ROOF_RECORD_BYTES * i, k, i as u8, o);
    }
}

// The own var request of each.
pub fn own_vars(bytes: &[u8], first: usize, vars: &mut [i32])
    requires { RoofsThere bytes.now first (length vars.old) }
    ensures vars_after { vars.new ≡ own_vars (roofs_here bytes.now first (length vars.old)) }
    ensures vars_held { VarsHeld (length vars.old) vars.new }
{
    for (i, own) in vars.iter_mut().enumerate() {
        let v = fields::inverter_at(bytes, first + ROOF_BYTES * i + 3);
        *own = v.var_request;
    }
}

// All off.
pub fn turn_off(on: &mut [bool])
    ensures { on.new ≡ replicate (length on.old) false }
{
    on.fill(false);
}
