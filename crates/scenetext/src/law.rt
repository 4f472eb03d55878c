//! Laws of the definitions.

ghost use Rattle.std.specs.Prelude.{◌≡◌, ◌⊎◌, ℕ, List};
ghost use Rattle.scenetext.specs.Scene.{Scene};
ghost use Rattle.scenetext.specs.Spelling.{Spells};
ghost use Rattle.scenetext.specs.Faults.{HasFault};

/// Each text spells one scene or has one fault, and never both.
pub fn one_reading()
    ensures either { (text : List ℕ) → ((scene : Scene) × Spells text scene) ⊎ ((line : ℕ) × (number : ℕ) × HasFault text line number) }
    ensures never_both { (text : List ℕ) (scene : Scene) (line number : ℕ) → Spells text scene → HasFault text line number → ⊥ }
    ensures one_scene { (text : List ℕ) (s t : Scene) → Spells text s → Spells text t → s ≡ t }
    ensures one_fault { (text : List ℕ) (l m j k : ℕ) → HasFault text l j → HasFault text m k → (l ≡ m) × (j ≡ k) }
{}
