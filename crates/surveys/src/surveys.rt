ghost use Rattle.std.specs.Prelude.{◌≡◌, ◌≢◌, [], length, None};
ghost use Rattle.graphs.specs.Models.{GraphModel, Valid};
ghost use Rattle.expander.specs.Accounts.{first_fault, survey_faults};
ghost use Rattle.expander.specs.Expansion.{survey_of, Surveyed};
ghost use Rattle.surveys.specs.Tables.{TableOf};
ghost use Rattle.surveys.specs.Answers.{survey_read};

use crate::answers::Survey;
use crate::searches::extend;
use crate::sets::PlaceSet;
use crate::tables::RowTable;
use bitsets::BitSet;

impl RowTable {
    // Looks at the sets of at least one and at most `size` places, smaller sets first and within a size in lexicographic order, up
    // to the first that does not expand. Where `check_size` refuses the size, no set is looked at.
    pub fn survey(&self, size: usize) -> Survey
        ensures answer { (g : GraphModel) → Valid g → TableOf g self.now → first_fault (survey_faults g.places size) ≡ None → survey_read result ≡ survey_of g size }
        ensures tells { (g : GraphModel) → Valid g → TableOf g self.now → first_fault (survey_faults g.places size) ≡ None → Surveyed g size (survey_read result) }
        ensures refused { first_fault (survey_faults (length self.now.rows.items) size) ≢ None → survey_read result ≡ record { level = 0; sets = 0; failing = [] } }
    {
        if self.check_size(size).is_err() {
            return Survey {
                level: 0,
                sets: 0,
                found: false,
                failing: PlaceSet::empty(),
            };
        }
        let mut sets = 0;
        for level in 0..size {
            let search = extend(self, 0, level + 1, BitSet::empty(), PlaceSet::empty());
            sets += search.sets;
            if search.found {
                return Survey {
                    level,
                    sets,
                    found: true,
                    failing: search.failing,
                };
            }
        }
        Survey {
            level: size,
            sets,
            found: false,
            failing: PlaceSet::empty(),
        }
    }
}
