// Bytes cut in two.
ghost use Rattle.std.specs.Prelude.{◌≡◌, ◌<◌, [], ◌∷◌, length, ◌==◌, IfSome, IfNone};
ghost use Rattle.std.specs.Option.{option_map_or};
ghost use Rattle.std.specs.List.{slice_split, before_first, after_first};

// What stands before the first byte like this, and what stands behind it if there is one.
pub(crate) fn cut(bytes: &[u8], at: u8) -> (&[u8], Option<&[u8]>)
    ensures before { result.0.now ≡ before_first (λ b. b == at) bytes.now }
    ensures after { IfSome result.1 (λ rest. rest.now ≡ after_first (λ b. b == at) bytes.now) }
    ensures none_after { IfNone result.1 (after_first (λ b. b == at) bytes.now ≡ []) }
    ensures shorter { IfSome result.1 (λ rest. length rest.now < length bytes.now) }
    ensures split { slice_split (λ b. b == at) bytes.now ≡ result.0.now ∷ option_map_or (λ rest. slice_split (λ b. b == at) rest.now) result.1 [] }
{
    match bytes.iter().position(|b| *b == at) {
        Some(place) => (&bytes[..place], Some(&bytes[place + 1..])),
        None => (bytes, None),
    }
}
