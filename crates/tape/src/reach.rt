ghost use Rattle.std.specs.Prelude.{◌≡◌, pos, ◌+ℤ◌};
ghost use Rattle.tape.specs.Meaning.{reached};

// The cell at a signed distance from the head, or nothing where a tape of this size has none. A size and a head are no tape yet, here and
// where one is checked: any two numbers may be asked about, so no struct holds them.
pub fn reach(size: usize, head: usize, distance: i32) -> Option<usize>
    ensures { result ≡ reached size (pos head +ℤ distance) }
{
    let cell = head.checked_add_signed(distance as isize)?;
    if cell < size { Some(cell) } else { None }
}
