// Who asks: a frame to the second address is a tenant's, and any other the owner's (paper 02, request 3).
ghost use Rattle.std.specs.Prelude.{◌≡◌, not};
ghost use Rattle.own.specs.Own.{own};
ghost use Rattle.board.specs.Board.{to_second, address_for, view_for};
ghost use Rattle.board.specs.Askers.{is_tenant};

use directory::Directory;
use meter::given::Given;

#[derive(Clone, Copy)]
pub(crate) enum Asker {
    Owner,
    Tenant,
}

impl Asker {
    pub(crate) fn of(given: Given, frame: &[u8]) -> Asker
        ensures { is_tenant result ≡ to_second given frame.now }
    {
        if (given.second != Given::NO_SECOND) & (frame.first() == Some(&given.second)) {
            Asker::Tenant
        } else {
            Asker::Owner
        }
    }

    // The address that its frames are judged by.
    pub(crate) fn address(self, given: Given) -> u8
        ensures { result ≡ address_for given (is_tenant self) }
    {
        match self {
            Asker::Owner => given.address,
            Asker::Tenant => given.second,
        }
    }

    pub(crate) fn may_write(self) -> bool
        ensures { result ≡ not (is_tenant self) }
    {
        matches!(self, Asker::Owner)
    }

    // What its reads are judged by.
    pub(crate) fn directory(self) -> Directory<'static>
        ensures { result ≡ view_for own (is_tenant self) }
    {
        match self {
            Asker::Owner => own::directory(),
            Asker::Tenant => own::tenant_directory(),
        }
    }
}
