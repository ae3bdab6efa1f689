// Where a configuration stands in a file: the file is one, or it is what Linux keeps of a device, with a device descriptor in front and further configurations behind.
#![tactic(auto)]

ghost use Rattle.std.specs.Prelude.{◌≡◌, ◌+◌, ◌≤◌, length};
ghost use Rattle.device_file.specs.Place.{is_device, total_of, first_of, place_in};

// The length and the type of a device descriptor.
const DEVICE: usize = 18;

const DEVICE_LENGTH: u8 = 18;

const DEVICE_TYPE: u8 = 1;

// Where the configuration starts, how many bytes it has, and how many stand behind it.
#[derive(Drop)]
pub struct Place {
    pub offset: usize,
    pub length: usize,
    pub behind: usize,
}

// Whether a file begins with a device descriptor.
pub fn is_device(file: &[u8]) -> bool
    ensures { result ≡ is_device file.now }
{
    if file.len() < DEVICE {
        return false;
    }
    if file[0] != DEVICE_LENGTH {
        return false;
    }
    file[1] == DEVICE_TYPE
}

// wTotalLength of the configuration behind the device descriptor; bytes past the end are 0.
fn total(file: &[u8]) -> usize
    ensures { result ≡ total_of file.now }
{
    let low = le::byte_at(file, DEVICE + 2);
    let high = le::byte_at(file, DEVICE + 3);
    le::join16(low, high) as usize
}

// Behind a device descriptor: the configuration's own length, or what is left where that is less.
fn first(total: usize, left: usize) -> Place
    ensures { result ≡ first_of total left }
{
    if left < total {
        return Place {
            offset: DEVICE,
            length: left,
            behind: 0,
        };
    }
    Place {
        offset: DEVICE,
        length: total,
        behind: left - total,
    }
}

// Where the first configuration of a file stands.
pub fn find(file: &[u8]) -> Place
    ensures value { result ≡ place_in file.now }
    ensures length_in_bounds { result.offset + result.length ≤ length file.now }
{
    if is_device(file) {
        return first(total(file), file.len() - DEVICE);
    }
    Place {
        offset: 0,
        length: file.len(),
        behind: 0,
    }
}
