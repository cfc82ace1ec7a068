//! What the kinds of instances mean.

ghost use Rattle.std.specs.Prelude.{IfOk};
ghost use Rattle.bind_forms.specs.Binds.{BindsKind};
ghost use Rattle.bind_kinds.specs.Meanings.{IsMeant};
ghost use Rattle.verilog_bind.specs.Sound.{IsBinder, setting_in, IsSoundKind};

use crate::binder::Binder;
use bind_forms::BoundKind;
use bind_hierarchy::Meaning;
use bind_kinds::KindName;
use rsfq_ids::list::NoMemory;

impl Binder<'_, '_> {
    /// What the name of a kind means, by numbers.
    pub(crate) fn bind_kind(&self, kind: KindName<'_>) -> Result<BoundKind, NoMemory>
        requires binder { IsBinder self.now }
        requires kind { IsSoundKind (setting_in self.now) self.now.places.now kind.name.now }
        requires meant { IsMeant (setting_in self.now) kind }
        ensures { IfOk result (BindsKind (setting_in self.now) self.now.places.now kind.entry.name.now) }
    {
        match kind.meaning {
            Some(Meaning::Module(at)) => Ok(BoundKind::Module(self.number_of(at))),
            Some(Meaning::Cell(row)) => {
                if row > u32::MAX as usize {
                    return Err(NoMemory);
                }
                Ok(BoundKind::Cell(row as u32))
            }
            None => unreachable!(),
        }
    }
}
