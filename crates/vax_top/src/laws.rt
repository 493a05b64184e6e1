//! What holds of the definitions alone.
ghost use Rattle.std.specs.Prelude.{◌≡◌, ℕ, List};
ghost use Rattle.vax_dialect.specs.declared.Dialect.{Dialect};
ghost use Rattle.vax_image.specs.declared.Base.{Base};
ghost use Rattle.vax_top.specs.Loaded.{AreSources, image_from, sources_image};

/// Files of which none begins as an image or an executable come to the same for `listing` as for `build`: to an image, or to a refusal.
pub fn sources_are_listed_as_they_are_built()
    ensures { (dialect : Dialect) → (base : Base) → (texts : List (List ℕ)) → AreSources texts →
        sources_image dialect base texts ≡ image_from dialect base texts }
{}
