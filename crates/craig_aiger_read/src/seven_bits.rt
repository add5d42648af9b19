//! Numbers in groups of seven bits, the lowest first.
ghost use Rattle.std.specs.Prelude.{◌≡◌, ◌<◌, ◌≤◌, ◌^◌, length, IfOk};
ghost use Rattle.craig_spec.specs.SevenBits.{first_number};
ghost use Rattle.craig_aiger_read.specs.ReadGroups.{as_first_number};

const MOST: usize = 9;

/// Why bytes don't begin with a number.
pub(crate) enum NumberFault {
    /// The bytes end within the number.
    Ends,
    /// The number has more than nine groups.
    TooLong,
}

/// The number at the front of the bytes, and what is behind it. Its top groups may be 0.
pub(crate) fn first_number(bytes: &[u8]) -> Result<(u64, &[u8]), NumberFault>
    ensures number { as_first_number result ≡ first_number bytes.now }
    ensures shorter { IfOk result (λ x. length x.1.now < length bytes.now) }
{
    let mut value = 0;
    let mut weight = 1;
    let mut rest = bytes;
    for _ in 0..MOST {
        let Some((byte, behind)) = rest.split_first() else {
            return Err(NumberFault::Ends);
        };
        if *byte < 128 {
            return Ok((value + weight * u64::from(*byte), behind));
        }
        value += weight * u64::from(*byte - 128);
        weight *= 128;
        rest = behind;
    }
    Err(NumberFault::TooLong)
}
