//! What an entry of the directory asks for.
ghost use Rattle.std.specs.Prelude.{◌≡◌, ◌<◌, ◌≤◌};
ghost use Rattle.std.specs.Option.{option_map};
ghost use Rattle.ep_rules.specs.EntryPoint.Candidates.{kernel_of_name, kernel_of_value, requested_by, priority_key};

// The kernel that the first five bytes of a name ask for, and 0 where they ask for none.
fn kernel_of_name(name: &[u8]) -> u32
    ensures { result ≡ kernel_of_name name.now }
{
    if name.starts_with(&[0xa0, 0x00, 0x00, 0x00, 0x04]) {
        2
    } else if name.starts_with(&[0xa0, 0x00, 0x00, 0x00, 0x03]) {
        3
    } else if name.starts_with(&[0xa0, 0x00, 0x00, 0x00, 0x25]) {
        4
    } else if name.starts_with(&[0xa0, 0x00, 0x00, 0x00, 0x65]) {
        5
    } else if name.starts_with(&[0xa0, 0x00, 0x00, 0x01, 0x52]) {
        6
    } else if name.starts_with(&[0xa0, 0x00, 0x00, 0x03, 0x33]) {
        7
    } else {
        0
    }
}

// The kernel that the value of 9F2A asks for. None skips the entry.
fn kernel_of_value(value: &[u8]) -> Option<u32>
    ensures { result ≡ kernel_of_value value.now }
{
    let first = *value.first()?;
    if first < 0x80 {
        return Some(u32::from(first));
    }
    if first % 64 == 0 || value.len() < 3 {
        return None;
    }
    Some(u32::from_be_bytes([0, first, value[1], value[2]]))
}

// The kernel that an entry asks for by its name and its 9F2A. None skips the entry.
pub(crate) fn requested_kernel(name: &[u8], value: Option<&[u8]>) -> Option<u32>
    ensures { result ≡ requested_by name.now (option_map (λ v. v.now) value.entry) }
{
    match value {
        None => Some(kernel_of_name(name)),
        Some(value) => kernel_of_value(value),
    }
}

// The priority that the value of 87 gives, 1 the highest; 0 and an absent one are 16, the lowest.
pub(crate) fn priority_key(value: Option<&[u8]>) -> u8
    ensures { result ≡ priority_key (option_map (λ v. v.now) value.entry) }
{
    match value {
        Some([byte, ..]) if byte % 16 != 0 => byte % 16,
        _ => 16,
    }
}
