// Whether the sizes of a frame can be true, by its format's GUID sort and bits per pixel (39).
#![tactic(auto)]

ghost use Rattle.std.specs.Prelude.{◌≡◌, ◌*◌, leb};
ghost use Rattle.pictures.specs.Pictures.{bits_of, in_bytes, untrue as untrue_by};

// The bits per pixel that a GUID sort has; 0 where 39 is not asked.
fn bits_of(sort: u8) -> u8
    ensures { result ≡ bits_of sort }
{
    match sort {
        1 => 16,
        2 => 12,
        _ => 0,
    }
}

// Whether the buffer holds the picture: width times height times bits, divided by 8 and rounded up. The product may need 40 bits.
fn holds(width: u16, height: u16, bits: u8, size: u32) -> bool
    ensures { result ≡ leb (in_bytes (width * height * bits)) size }
{
    let pixels = width as u64 * height as u64;
    let all = pixels * bits as u64;
    (all + 7) / 8 <= size as u64
}

// 39: whether these sizes cannot be true.
pub fn untrue(sort: u8, bits: u8, width: u16, height: u16, size: u32) -> bool
    ensures { result ≡ untrue_by sort bits width height size }
{
    let right = bits_of(sort);
    if right == 0 {
        return false;
    }
    if width == 0 {
        return true;
    }
    if height == 0 {
        return true;
    }
    if bits != right {
        return true;
    }
    let enough = holds(width, height, bits, size);
    !enough
}
