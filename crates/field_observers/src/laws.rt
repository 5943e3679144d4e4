//! Laws of the definitions: what each field has is what one list of all registrations, in order of time, has for that field.
ghost use Rattle.std.specs.Prelude.{◌≡◌, ℕ, List, [], ◌∷◌, ◌++◌, filter};
ghost use Rattle.field_observers.specs.InTime.{Observer, in_time, stays};
ghost use Rattle.field_observers.specs.Registered.{registered, unregistered};

/// One registration more at the end of the list is one more of its field.
pub fn a_registration_comes_last()
    ensures { (all : List Observer) (o : Observer) (n : ℕ) (f : List ℕ) → in_time (all ++ o ∷ []) n f ≡ registered o.node o.field o.registration (in_time all) n f }
{}

/// Dropping from the list what isn't fixed at a field drops it from that field alone.
pub fn dropped_registrations_are_of_their_field()
    ensures { (all : List Observer) (node : ℕ) (field : List ℕ) (n : ℕ) (f : List ℕ) → in_time (filter (stays node field) all) n f ≡ unregistered node field (in_time all) n f }
{}
