// The bounds of a studio.
ghost use Rattle.editor_state.specs.Bounded.{IsBounded};
ghost use Rattle.editor_core.specs.Core.{core_of};
ghost use Rattle.editor_state.specs.Studios.{IsStudio};

use super::studio::Studio;
use disk_model::Store;

impl<S: Store> Studio<S> {
    /// What the studio stands for is within the bounds of the model, on every store. It changes nothing.
    pub fn is_bounded(&self)
        requires { IsStudio S.Store (core_of self.now) }
        ensures { IsBounded S.Store (core_of self.now) }
    {
        let _points = self.history.len();
    }
}
