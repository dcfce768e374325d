// How many numbers and how many slots a program may have.
ghost use Rattle.std.specs.Prelude.{◌≡◌, suc};
ghost use Rattle.meaning.specs.Faults.{too_many};

const MAX_NUMBERS: u32 = 128;

const MAX_SLOTS: u64 = 1024;

// Would one number more, with so many columns, break the limits?
pub fn too_many(count: u32, width: u32) -> bool
    ensures { result ≡ too_many (suc count) width }
{
    count >= MAX_NUMBERS || (count as u64 + 1) * width as u64 > MAX_SLOTS
}
