// The layout of a constant's text.
ghost use Rattle.std.specs.Prelude.{◌≤◌, IfSome};
ghost use Rattle.std.proofs.Props.{props};

// How the ten digits of a constant are laid out: those from `from` to `point` stand before the point, a zero if there are none; those
// from `point` to `end` after it, with no point if there are none; then the power of ten and `UNIT`, if there is one.
#[derive(Clone, Copy)]
pub struct Layout {
    pub from: usize,
    pub point: usize,
    pub end: usize,
    pub power: Option<usize>,
    ghost whole: { from ≤ point },
    ghost fraction: { point ≤ end },
    ghost ten: { end ≤ 10 },
    ghost small: { IfSome power (λ p. p ≤ 520) } by { Prim.hlevel props },
}
