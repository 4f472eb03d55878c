//! Four of a kind, as a context's ports are handed out.

ghost use Rattle.std.specs.Prelude.{◌≡◌, ◌∷◌, []};

/// The four of an array, each by itself.
pub fn apart<T>(row: [T; 4]) -> (T, T, T, T)
    ensures { row ≡ result.0 ∷ result.1 ∷ result.2 ∷ result.3 ∷ [] }
{
    let [zero, one, two, three] = row;
    (zero, one, two, three)
}
