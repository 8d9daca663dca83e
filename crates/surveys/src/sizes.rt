ghost use Rattle.std.specs.Prelude.{◌≡◌, length};
ghost use Rattle.std.specs.Result.{result_err};
ghost use Rattle.expander.specs.Accounts.{first_fault, survey_faults};

use crate::counts::too_many;
use crate::tables::RowTable;
use refusals::{Fault, Layer, Refusal};

impl RowTable {
    // Refuses a size above eight or above the number of places, and one with more sets than 32 bits count. It looks at no set.
    pub fn check_size(&self, size: usize) -> Result<(), Fault>
        ensures { result_err result ≡ first_fault (survey_faults (length self.now.rows.items) size) }
    {
        let places = self.rows.len();
        if size > 8 || size > places {
            return Err(Layer::Decoder.fault(Refusal::SurveySize, 0));
        }
        if too_many(places, size) {
            return Err(Layer::Decoder.fault(Refusal::SurveyTooLong, 0));
        }
        Ok(())
    }
}
