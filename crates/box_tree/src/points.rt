// The points at which a range is cut.
ghost use Rattle.std.specs.Prelude.{◌≡◌, ◌<◌, ◌≤◌, ◌-◌, ◌+◌, [], ◌∷◌, length, drop};
ghost use Rattle.dyadic.specs.Rising.{point_of};
ghost use Rattle.script_hints.specs.Few.{HasFewPieces};
ghost use Rattle.script_claims.specs.Ranges.{IsOrdered};
ghost use Rattle.box_tree.specs.Ranges.{IsWithin};
ghost use Rattle.box_tree.specs.Points.{asked_points};
ghost use Rattle.box_tree.specs.Points as spec;

use dyadic::{Dyadic, Points, part_down};
use script_claims::SplitRange;
use script_hints::hint::Cutting;

/// The number i of the points that cut the range into n parts.
fn part_at(range: SplitRange, i: u8, n: u8) -> Dyadic
    requires inside { 0 < i }
    requires before { i < n }
    requires parts { n ≤ 64 }
    requires ordered { IsOrdered range }
    ensures { result ≡ spec.part_at range i n }
{
    part_down(range.low, range.high, i, n)
}

/// The points with one more, unless it is to be dropped.
fn with_point(range: SplitRange, points: Points, p: Dyadic) -> Points
    requires room { length points < 63 }
    ensures is { result ≡ spec.with_point range points p }
    ensures more { length result ≤ length points + 1 }
{
    if !range.has_inside(p) {
        return points;
    }
    match points.with_last(p) {
        Some(more) => more,
        None => points,
    }
}

/// The points with these, but for those that are to be dropped.
fn with_points(range: SplitRange, points: Points, more: &[Dyadic]) -> Points
    requires room { length points + length more.now ≤ 63 }
    ensures { result ≡ spec.with_points range points more.now }
{
    match more {
        [] => points,
        [p, later @ ..] => with_points(range, with_point(range, points, *p), later),
    }
}

/// The points that cut the range into n parts.
fn part_points(range: SplitRange, n: u8) -> Points
    requires parts { n ≤ 64 }
    requires ordered { IsOrdered range }
    ensures { result ≡ spec.with_points range [] (spec.parts_from range n 1 (n - 1)) }
{
    let mut points = Points::new();
    for i in 1..n {
        points = with_point(range, points, part_at(range, i, n));
    }
    points
}

/// Where the cutting cuts the range.
pub fn cut_points(range: SplitRange, cut: &Cutting) -> Points
    requires ordered { IsOrdered range }
    requires few { HasFewPieces cut.now }
    ensures { result ≡ spec.cut_points range cut.now }
{
    match cut {
        Cutting::Pieces(count) => part_points(range, *count),
        Cutting::Points(points) => with_points(range, Points::new(), points.as_slice()),
    }
}

/// How many points the cutting asks for.
fn asked_count(cut: &Cutting) -> u8
    requires { HasFewPieces cut.now }
    ensures is { (range : SplitRange) → result ≡ length (asked_points range cut.now) }
    ensures most { result ≤ 63 }
{
    match cut {
        Cutting::Pieces(count) => count.saturating_sub(1),
        Cutting::Points(points) => points.as_slice().len() as u8,
    }
}

/// The point number k that the cutting asks for.
fn asked_point(range: SplitRange, cut: &Cutting, k: u8) -> Dyadic
    requires ordered { IsOrdered range }
    requires few { HasFewPieces cut.now }
    requires inside { k < length (asked_points range cut.now) }
    ensures { result ≡ point_of (asked_points range cut.now) k }
{
    match cut {
        Cutting::Pieces(count) => part_at(range, k + 1, *count),
        Cutting::Points(points) => points.as_slice()[k as usize],
    }
}

/// Whether a point that the cutting asks for stays, from number k on.
fn has_from(range: SplitRange, cut: &Cutting, k: u8) -> bool
    requires ordered { IsOrdered range }
    requires few { HasFewPieces cut.now }
    ensures { result ≡ spec.are_any (spec.staying range (drop k (asked_points range cut.now))) }
{
    if k >= asked_count(cut) {
        return false;
    }
    if range.has_inside(asked_point(range, cut, k)) {
        return true;
    }
    has_from(range, cut, k + 1)
}

/// Whether the cutting has points in the range.
pub fn has_points(range: SplitRange, cut: &Cutting) -> bool
    requires ordered { IsOrdered range }
    requires few { HasFewPieces cut.now }
    ensures { result ≡ spec.are_any (spec.cut_points range cut.now) }
{
    has_from(range, cut, 0)
}

/// The piece number i of the rest of the range, which the asked points from number k on cut.
fn piece_from(range: SplitRange, cut: &Cutting, k: u8, rest: SplitRange, i: u8) -> SplitRange
    requires ordered { IsOrdered range }
    requires few { HasFewPieces cut.now }
    ensures { result
        ≡ spec.piece_of rest (spec.staying rest (drop k (asked_points range cut.now))) i }
{
    if k >= asked_count(cut) {
        return last_piece(rest, i);
    }
    let p = asked_point(range, cut, k);
    if !rest.has_inside(p) {
        return piece_from(range, cut, k + 1, rest, i);
    }
    if i == 0 {
        return SplitRange {
            var: rest.var,
            low: rest.low,
            high: p,
        };
    }
    let above = SplitRange {
        var: rest.var,
        low: p,
        high: rest.high,
    };
    piece_from(range, cut, k + 1, above, i - 1)
}

/// The piece number i of a range that isn't cut.
fn last_piece(range: SplitRange, i: u8) -> SplitRange
    ensures { result ≡ spec.piece_of range [] i }
{
    if i == 0 {
        return range;
    }
    SplitRange {
        var: range.var,
        low: range.high,
        high: range.high,
    }
}

/// The piece number i of the range where the cutting cuts it.
pub fn cut_piece(range: SplitRange, cut: &Cutting, i: u8) -> SplitRange
    requires ordered { IsOrdered range }
    requires few { HasFewPieces cut.now }
    ensures is { result ≡ spec.piece_of range (spec.cut_points range cut.now) i }
    ensures ordered { IsOrdered result }
{
    piece_from(range, cut, 0, range, i)
}

/// The piece number i of a range that is halved at this point of it.
pub fn half_piece(range: SplitRange, m: Dyadic, i: u8) -> SplitRange
    requires ordered { IsOrdered range }
    requires within { IsWithin range m }
    ensures is { result ≡ spec.piece_of range (m ∷ []) i }
    ensures ordered { IsOrdered result }
{
    if i == 0 {
        return SplitRange {
            var: range.var,
            low: range.low,
            high: m,
        };
    }
    let above = SplitRange {
        var: range.var,
        low: m,
        high: range.high,
    };
    last_piece(above, i - 1)
}
