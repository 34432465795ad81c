// "a bad header (short, mark, version, flags above 7, over 49,160 bytes ..)"; document 02, order 5: "flags above 15 are now R8".
ghost use Rattle.std.specs.Prelude.{◌≡◌};
ghost use Rattle.reasons.specs.Header as reasons;

#[derive(Clone, Copy, PartialEq, Eq)]
pub enum HeaderReason {
    // Fewer than eight bytes.
    Short,
    Mark,
    Version,
    // Above 15.
    Flags,
    // Over 49,160 bytes.
    Long,
}

#[tactic(auto, unfolding(crate::specs::Header::of_header, crate::specs::Header::after_mark, trace::specs::Beginning::marked))]
pub fn of_header(file: &[u8]) -> Result<(), HeaderReason>
    ensures { result ≡ reasons.of_header file.now }
{
    if file.len() < trace::HEADER_BYTES {
        return Err(HeaderReason::Short);
    }
    if !file.starts_with(b"PES") {
        return Err(HeaderReason::Mark);
    }
    if little_endian::half(file[3], file[4]) != 1 {
        return Err(HeaderReason::Version);
    }
    if file[5] > 15 {
        return Err(HeaderReason::Flags);
    }
    if trace::MOST_BYTES < file.len() {
        return Err(HeaderReason::Long);
    }
    Ok(())
}
