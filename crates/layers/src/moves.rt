//! Moves: turns by the symmetries of the square, with an offset.
ghost use Rattle.std.specs.Prelude.{◌≡◌, T, ℤ, IfOk, IfErr, Some, None};
ghost use Rattle.floats.specs.Value.{Val};
ghost use Rattle.plane.specs.Affines.{product, image, det};
ghost use Rattle.plane.specs.Points.{GridPoint};
ghost use Rattle.layers.specs.Moves.{is_turn, page_offset, is_move, refusal, unmoved, read_as, unit, units_and_zeros, sign as sign_of, taken_back, Composes};
ghost use Rattle.layers.specs.declared.fault.MoveFault.TheVariants.{OffPage};

use super::fault::MoveFault;
use floats::page::on_page;
use plane::affine::Affine;
use plane::point::Point;

/// A move: an affine map whose (a, b, c, d) is one of the eight turns (1,0,0,1), (0,1,-1,0), (-1,0,0,-1),
/// (0,-1,1,0), (1,0,0,-1), (-1,0,0,1), (0,1,1,0) and (0,-1,-1,0), and whose e and f are grid numbers on the page.
/// No value of this type is anything else.
#[derive(Clone, Copy)]
pub struct Move {
    map: Affine,
    ghost lawful: { T (is_move map) },
}

impl Move {
    /// The move with the numbers of `map`. It refuses 10 NOT A TURN, then 6 OFF GRID for an offset that is no
    /// grid number, then 7 OFF PAGE. The sign of a zero does not matter.
    pub fn new(map: Affine) -> Result<Move, MoveFault>
        ensures granted { IfOk result (λ m. (m.map ≡ map) × (refusal map ≡ None)) }
        ensures denied { IfErr result (λ f. refusal map ≡ Some f) }
    {
        if !turns(map) {
            return Err(MoveFault::NotATurn);
        }
        Point::new(map.e, map.f).check_page()?;
        Ok(Move { map })
    }

    /// The move that leaves each point where it is.
    pub fn unmoved() -> Move
        ensures { result.map ≡ unmoved }
    {
        Move {
            map: Affine::new(1.0, 0.0, 0.0, 1.0, 0.0, 0.0),
        }
    }

    /// What `map` is read as where it stands for a move: numbers that make no move are read as (1,0,0,1) without
    /// offset.
    pub fn read(map: Affine) -> Move
        ensures { result.map ≡ read_as map }
    {
        Move::new(map).unwrap_or(Move::unmoved())
    }

    /// The move's numbers, as they were given.
    pub fn numbers(self) -> Affine
        ensures value { result ≡ self.map }
        ensures lawful { T (is_move result) }
    {
        self.map
    }

    /// ad - bc, which is 1, or -1 for a mirror.
    pub fn sign(self) -> i32
        ensures value { result ≡ sign_of self.map }
        ensures determinant { Val (det self.map) result 0 }
    {
        if self.map.determinant() < 0.0 { -1 } else { 1 }
    }

    /// The product: first `other`, then this move. It refuses 7 OFF PAGE where the product's offset is not on the
    /// page; else it is a move.
    pub fn mul(self, other: Move) -> Result<Move, MoveFault>
        ensures granted { IfOk result (λ m. (m.map ≡ product self.map other.map) × T (page_offset (product self.map other.map))) }
        ensures denied { IfErr result (λ f. (f ≡ OffPage) × (T (page_offset (product self.map other.map)) → ⊥)) }
        ensures composes { Composes self.map other.map }
    {
        let map = self.map.mul(other.map);
        if has_page_offset(map) {
            Ok(Move { map })
        } else {
            Err(MoveFault::OffPage)
        }
    }

    /// Where the move carries `pt`. Taken back from there, a grid point of the field is where it was.
    pub fn forward(self, pt: Point) -> Point
        ensures value { result ≡ image self.map pt }
        ensures undone { (u v : ℤ) → GridPoint pt u v → GridPoint (taken_back self.map result) u v }
    {
        self.map.map(pt)
    }

    /// `pt` taken back through the move: the offset subtracted, and the turn undone. Carried forward from there, a
    /// grid point of the field is where it was.
    pub fn back(self, pt: Point) -> Point
        ensures value { result ≡ taken_back self.map pt }
        ensures undone { (u v : ℤ) → GridPoint pt u v → GridPoint (image self.map result) u v }
    {
        let Affine { a, b, c, d, e, f } = self.map;
        let x = pt.x - e;
        let y = pt.y - f;
        Point::new(a * x + b * y, c * x + d * y)
    }
}

// Whether (a, b, c, d) is one of the eight turns: along the axes or across them, each with two signs.
fn turns(m: Affine) -> bool
    ensures { result ≡ is_turn m }
{
    has_units_and_zeros(m.a, m.d, m.b, m.c) || has_units_and_zeros(m.b, m.c, m.a, m.d)
}

// Whether `p` and `q` are 1 or -1, and `r` and `s` are 0.
fn has_units_and_zeros(p: f64, q: f64, r: f64, s: f64) -> bool
    ensures { result ≡ units_and_zeros p q r s }
{
    is_unit(p) && is_unit(q) && r == 0.0 && s == 0.0
}

// Whether `x` is 1 or -1.
fn is_unit(x: f64) -> bool
    ensures { result ≡ unit x }
{
    x == 1.0 || x == -1.0
}

/// Whether the offset of `m` is on the page, as that of each move is.
pub fn has_page_offset(m: Affine) -> bool
    ensures { result ≡ page_offset m }
{
    on_page(m.e) && on_page(m.f)
}
