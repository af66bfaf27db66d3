//! What the words of a machine tell when no descriptor stands in them.

ghost use Rattle.md_store_law.specs.EvenFields.{EvenFieldsAreStores};

/// If every count of a machine is even and the logical words of a resolution are a store, then its
/// words are a store with the same state, which is what `read_off` gives. The function does
/// nothing.
pub fn even_fields_are_stores()
    ensures { EvenFieldsAreStores }
{}
