//! What the definition of the text says of some states.

ghost use Rattle.std.specs.Prelude.{◌≡◌, ◌∷◌, ◌++◌, [], ℕ, codes};
ghost use Rattle.cf_base.specs.declared.policies.Mode.{Mode};
ghost use Rattle.cf_model.specs.State.{Off, State, start};
ghost use Rattle.cf_model.specs.Store.{Held};
ghost use Rattle.cf_world_plays.specs.StateExamples.{two_runs};
ghost use Rattle.cf_world_plays.specs.States.{state_text};
ghost use Rattle.cf_state_rows.specs.Values.{line_of, volume_value};

/// At the start there is the root alone.
pub fn a_new_volume_shows_its_root()
    ensures { (mode : Mode) (remote : Held) (clusters : ℕ) → state_text (start mode remote clusters)
        ≡ codes "{\"count\":0,\"epoch\":1,\"items\":[{\"here\":[],\"id\":1,\"identity\":\"-\",\"insync\":false,\"kind\":\"dir\",\"name\":\"\",\"number\":\"0.0\",\"parent\":0,\"pin\":\"unspecified\",\"size\":0}]}" ++ 10 ∷ [] }
{}

/// A file shows the runs of the bytes that are here, and its name without escapes.
pub fn a_file_shows_its_runs()
    ensures { line_of (volume_value 7 3 (two_runs ∷ []))
        ≡ codes "{\"count\":7,\"epoch\":3,\"items\":[{\"here\":[[0,2],[4,1]],\"id\":12,\"identity\":\"0aff\",\"insync\":true,\"kind\":\"pfile\",\"name\":\"a b%\",\"number\":\"3.40\",\"parent\":1,\"pin\":\"pinned\",\"size\":5}]}" ++ 10 ∷ [] }
{}

/// While the power is cut no volume is shown.
pub fn no_volume_is_shown_off()
    ensures { (s : State) → s.power ≡ Off → state_text s ≡ codes "{\"off\":true}" ++ 10 ∷ [] }
{}
