// Moves of bytes inside a store. Each answers how many bytes it moved, for the store may lie in slow memory.
#![tactic(auto)]

ghost use Rattle.std.specs.Prelude.{◌≡◌, ◌+◌, ◌-◌, ◌≤◌, length, take, drop};
ghost use Rattle.std.proofs.Math.Seq.{paste};
ghost use Rattle.std.proofs.lemmas.List.Edits.{sets};
ghost use Rattle.store_gap.specs.Moves.{bytes_moved};

// How many bytes move where `new` bytes take the place of `old` ones at `at`: those after these, up to `used`, and none when the two counts are equal.
#[tactic(auto, using(crate::specs::Moves::moves_none, crate::specs::Moves::moves_tail))]
fn to_move(at: usize, old: usize, new: usize, used: usize) -> usize
    requires { at + old ≤ used }
    ensures { (result ≡ bytes_moved at old new used) × (result ≤ used - (at + old)) }
{
    let tail = used - (at + old);
    if old == new { 0 } else { tail }
}

// Makes room for `new` bytes at `at` in the place of `old` ones: the bytes after these, up to `used`, move once, and not at all when the two counts are equal.
pub fn resize(s: &mut [u8], at: usize, old: usize, new: usize, used: usize) -> usize
    requires { (at + old ≤ used) × (used ≤ length s.old) × (used - old + new ≤ length s.old) }
    ensures { (result ≡ bytes_moved at old new used) × (s.new ≡ paste s.old (at + new) (drop (at + old) s.old) result) }
{
    let from = at + old;
    let to = at + new;
    let moved = to_move(at, old, new, used);
    s.copy_within(from..from + moved, to);
    moved
}

// Carries `n` bytes at `from` down to `to`: the gap between the two closes.
pub fn carry_down(s: &mut [u8], to: usize, from: usize, n: usize)
    requires { (to ≤ from) × (from + n ≤ length s.old) }
    ensures { s.new ≡ sets s.old to (take n (drop from s.old)) }
{
    resize(s, to, from - to, 0, from + n);
}
