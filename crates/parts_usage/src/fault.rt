//! What is wrong with an order before it is judged.
ghost use Rattle.std.specs.Prelude.{◌≡◌, ◌+◌, ◌<◌, ◌^◌};
ghost use Rattle.pb_base.specs.NamedSet.{place_of_fault};
ghost use Rattle.parts_usage.specs.Fault.{fault_number, fault_of_name};

use pb_base::NameFault;

/// Why an order can't be judged. A place is that of the code among those ordered, counted from 1.
#[derive(Clone, Copy, Debug, PartialEq, Eq)]
pub enum OrderFault {
    /// The day of the order isn't in the book's term.
    DayOutsideTerm,
    /// The book has no code of this name.
    UnknownCode(u64),
    /// The code stands further left already.
    RepeatedCode(u64),
}

impl OrderFault {
    /// The number under which the fault is reported.
    pub fn number(&self) -> u32
        ensures { result ≡ fault_number self.now }
    {
        match self {
            OrderFault::DayOutsideTerm => 1,
            OrderFault::UnknownCode(_) => 2,
            OrderFault::RepeatedCode(_) => 3,
        }
    }

    // The fault of the name at a place that is counted from 0.
    pub(crate) fn of_name(fault: NameFault) -> OrderFault
        requires { place_of_fault fault + 1 < 2 ^ 64 }
        ensures { result ≡ fault_of_name fault }
    {
        match fault {
            NameFault::Unknown(place) => OrderFault::UnknownCode(place as u64 + 1),
            NameFault::Repeated(place) => OrderFault::RepeatedCode(place as u64 + 1),
        }
    }
}
