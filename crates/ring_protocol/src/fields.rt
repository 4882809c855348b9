//! The fields of a body, which are little-endian. They are read from the front of a body, and written at the start of
//! an output.

ghost use Rattle.std.specs.Prelude.{◌≡◌, ◌≤◌, ◌<◌, ◌^◌, ◌↔◌, length, IsSome, IfSome};
ghost use Rattle.std.specs.{List.flat_map, Option.option_map};
ghost use Rattle.ring_protocol.specs.{Bad.correlation_of, Writing.WritesText};
ghost use Rattle.ring_protocol.specs.Field.{u32_at, u64_at, i32_at, i64_at, sized_at, u32_field};

#[tactic(auto, unfolding(crate::specs::Field::u32_at))]
#[inline]
pub fn take_u32(bytes: &[u8]) -> Option<(u32, &[u8])>
    ensures { option_map (λ x. (x.0, x.1.now)) result ≡ u32_at bytes.now }
{
    let (field, rest) = bytes.split_first_chunk::<4>()?;
    Some((u32::from_le_bytes(*field), rest))
}

#[tactic(auto, unfolding(crate::specs::Field::u64_at))]
#[inline]
pub fn take_u64(bytes: &[u8]) -> Option<(u64, &[u8])>
    ensures { option_map (λ x. (x.0, x.1.now)) result ≡ u64_at bytes.now }
{
    let (field, rest) = bytes.split_first_chunk::<8>()?;
    Some((u64::from_le_bytes(*field), rest))
}

#[tactic(auto, unfolding(crate::specs::Field::i32_at))]
#[inline]
pub fn take_i32(bytes: &[u8]) -> Option<(i32, &[u8])>
    ensures { option_map (λ x. (x.0, x.1.now)) result ≡ i32_at bytes.now }
{
    let (bits, rest) = take_u32(bytes)?;
    Some((bits.cast_signed(), rest))
}

#[tactic(auto, unfolding(crate::specs::Field::i64_at))]
#[inline]
pub fn take_i64(bytes: &[u8]) -> Option<(i64, &[u8])>
    ensures { option_map (λ x. (x.0, x.1.now)) result ≡ i64_at bytes.now }
{
    let (bits, rest) = take_u64(bytes)?;
    Some((bits.cast_signed(), rest))
}

#[tactic(auto, unfolding(crate::specs::Field::sized_at))]
#[inline]
pub fn take_sized(bytes: &[u8]) -> Option<(&[u8], &[u8])>
    ensures { option_map (λ x. (x.0.now, x.1.now)) result ≡ sized_at bytes.now }
{
    let (len, rest) = take_u32(bytes)?;
    rest.split_at_checked(len as usize)
}

/// Returns the correlation id of the reply to a body that encodes nothing.
#[tactic(auto, unfolding(crate::specs::Bad::correlation_of, crate::specs::Field::u64_at))]
pub fn correlation_in(body: &[u8]) -> u64
    ensures { result ≡ correlation_of body.now }
{
    take_u64(body).map_or(u64::MAX, |(correlation, _)| correlation)
}

/// Returns the total length of the fields, if it is at most the limit.
#[inline]
fn joined_len(fields: &[&[u8]], limit: usize) -> Option<usize>
    ensures fits { IsSome result ↔ (length (flat_map (λ field. field.now) fields.now) ≤ limit) }
    ensures len { IfSome result (λ n. n ≡ length (flat_map (λ field. field.now) fields.now)) }
{
    let mut room = limit;
    for field in fields {
        room = room.checked_sub(field.len())?;
    }
    Some(limit - room)
}

/// Writes the fields one after another at the start of the output, if they fit.
#[inline]
pub fn write_fields(out: &mut [u8], fields: &[&[u8]]) -> Option<usize>
    ensures { WritesText (flat_map (λ field. field.now) fields.now) out.old out.new result }
{
    let len = joined_len(fields, out.len())?;
    let mut end = 0;
    for field in fields {
        out[end..end + field.len()].copy_from_slice(field);
        end += field.len();
    }
    Some(len)
}

/// Returns the length of the bytes as the field that comes before them, if four bytes can hold the length.
#[tactic(auto, unfolding(crate::specs::Field::u32_field))]
#[inline]
pub fn len_field(bytes: &[u8]) -> Option<[u8; 4]>
    ensures fits { IsSome result ↔ (length bytes.now < 2 ^ 32) }
    ensures len { IfSome result (λ field. field ≡ u32_field (length bytes.now)) }
{
    Some(u32::try_from(bytes.len()).ok()?.to_le_bytes())
}
