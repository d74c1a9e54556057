//! Lines of certificates in a buffer of fixed size, so a whole line is put at once. A line is
//! filled from its end on: each number is written in its final place, and nothing is moved.
ghost use Rattle.std.specs.Prelude.{◌≡◌, ◌+◌, ◌*◌, ◌<◌, ◌≤◌, ◌∷◌, ◌++◌, IfSome, decimal, drop, length};
ghost use Rattle.std.specs.List.{flat_map};
ghost use Rattle.certificate_files.specs.Texts.{sign_code, point_text, route_text, gate_text};

use frame_net::Point;
use itoa::write_digits;

/// The most points of a route that fills a line.
const MOST_POINTS: usize = 40;

/// Room for a route of `MOST_POINTS` points: a space, ten digits and a sign each, and two bytes
/// more.
const LINE_BYTES: usize = 482;

/// The place of a line.
#[derive(Drop)]
pub(crate) struct Line {
    bytes: [u8; LINE_BYTES],
}

fn sign(behind: bool) -> u8
    ensures { result ≡ sign_code behind }
{
    if behind { b'+' } else { b'-' }
}

/// Fills the byte before `end`, and answers its place.
fn fill_byte(line: &mut [u8], end: usize, byte: u8) -> usize
    requires room { 0 < end }
    requires within { end ≤ length line.old }
    ensures long { length line.new ≡ length line.old }
    ensures start { result + 1 ≡ end }
    ensures text { drop result line.new ≡ byte ∷ drop end line.old }
{
    line[end - 1] = byte;
    end - 1
}

/// Fills a number, in decimal and without leading zeros, up to `end`. Returns the index of its
/// first byte.
fn fill_number(line: &mut [u8], end: usize, number: u32) -> usize
    requires room { 10 ≤ end }
    requires within { end ≤ length line.old }
    ensures long { length line.new ≡ length line.old }
    ensures start { result ≤ end }
    ensures most { end ≤ result + 10 }
    ensures text { drop result line.new ≡ decimal number ++ drop end line.old }
{
    write_digits(u64::from(number), line, end)
}

/// Fills a space and a point up to `end`. Returns the index of their first byte.
fn fill_point(line: &mut [u8], end: usize, point: &Point) -> usize
    requires room { 12 ≤ end }
    requires within { end ≤ length line.old }
    ensures long { length line.new ≡ length line.old }
    ensures start { result ≤ end }
    ensures most { end ≤ result + 12 }
    ensures text { drop result line.new ≡ point_text point.now ++ drop end line.old }
{
    let sign_at = fill_byte(line, end, sign(point.behind));
    let digits_at = fill_number(line, sign_at, point.var);
    fill_byte(line, digits_at, b' ')
}

/// Fills the points up to `end`, with a space before each. Returns the index of their first byte.
fn fill_points(line: &mut [u8], end: usize, points: &[Point]) -> usize
    requires room { 12 * length points.now < end }
    requires within { end ≤ length line.old }
    ensures long { length line.new ≡ length line.old }
    ensures room { 0 < result }
    ensures start { result ≤ end }
    ensures text { drop result line.new ≡ flat_map point_text points.now ++ drop end line.old }
{
    let mut left = points.len();
    let mut start = end;
    while left > 0 {
        left -= 1;
        start = fill_point(line, start, &points[left]);
    }
    start
}

/// Fills the end of a line with that of a route. Returns the index of its first byte.
fn fill_route(line: &mut [u8], points: &[Point]) -> usize
    requires { 12 * length points.now + 2 ≤ length line.old }
    ensures start { result ≤ length line.new }
    ensures text { drop result line.new ≡ route_text points.now }
{
    let end = fill_byte(line, line.len(), b'\n');
    let points_at = fill_points(line, end, points);
    fill_byte(line, points_at, b'r')
}

/// Fills the end of a line with that of a gate. Returns the index of its first byte.
fn fill_gate(line: &mut [u8], gate: u32) -> usize
    requires { 13 ≤ length line.old }
    ensures start { result ≤ length line.new }
    ensures text { drop result line.new ≡ gate_text gate }
{
    let end = fill_byte(line, line.len(), b'\n');
    let digits_at = fill_number(line, end, gate);
    let space_at = fill_byte(line, digits_at, b' ');
    fill_byte(line, space_at, b'g')
}

impl Line {
    pub(crate) fn new() -> Line {
        Line {
            bytes: [0; LINE_BYTES],
        }
    }

    /// Returns the line of a route, if its points aren't too many for the buffer.
    pub(crate) fn route(&mut self, points: &[Point]) -> Option<&[u8]>
        ensures { IfSome result (λ text. text.now ≡ route_text points.now) }
    {
        if points.len() > MOST_POINTS {
            return None;
        }
        let start = fill_route(&mut self.bytes, points);
        Some(&self.bytes[start..])
    }

    /// Returns the line of a gate.
    pub(crate) fn gate(&mut self, gate: u32) -> &[u8]
        ensures { result.now ≡ gate_text gate }
    {
        let start = fill_gate(&mut self.bytes, gate);
        &self.bytes[start..]
    }
}
