// Tickets, which a pending cell is settled or struck with.
ghost use Rattle.std.specs.Prelude.{◌≡◌};
ghost use Rattle.sheet.specs.Tickets.{ticket_of};

// The serial of a sheet and the number of a cell. It is no `Drop` and cannot be copied: it is spent by settling, by
// striking or by handing it in. Any two numbers make one, since a sheet has to answer whatever is presented. It does not hold
// a `Stub`: that is plain data, and every clause would say `ticket.stub.serial` for `ticket.serial`.
pub struct Ticket {
    serial: u32,
    cell: u64,
}

// What is left of a ticket that was spent.
#[derive(Clone, Copy, PartialEq, Eq, Debug)]
pub struct Stub {
    pub serial: u32,
    pub cell: u64,
}

// A ticket that was spent is presented again by its two numbers.
impl From<Stub> for Ticket {
    ghost from_gives = { λ stub ticket. ticket ≡ ticket_of stub };

    fn from(stub: Stub) -> Ticket {
        Ticket::new(stub.serial, stub.cell)
    }
}

impl Ticket {
    pub fn new(serial: u32, cell: u64) -> Ticket
        ensures serial { result.serial ≡ serial }
        ensures cell { result.cell ≡ cell }
    {
        Ticket { serial, cell }
    }

    // No `From`: by a rule a ticket is spent by settling, striking or handing in alone.
    pub(crate) fn spend(self) -> Stub
        ensures { ticket_of result ≡ self }
    {
        let Ticket { serial, cell } = self;
        Stub { serial, cell }
    }
}
