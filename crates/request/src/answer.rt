// The status that a refused request is answered with.
ghost use Rattle.std.specs.Prelude.{◌≡◌};
ghost use Rattle.request.specs.Answer.{answer_of, said, status_of};
ghost use Rattle.request.specs.Examples.{Examples};
ghost use Rattle.request.specs.Sound.{AcceptedIsSound};

use crate::reading::read_request;
use crate::{Fault, Request};
use notice::Status;

impl From<Fault> for Status {
    ghost from_gives = { λ e r. r ≡ status_of e };

    fn from(e: Fault) -> Status {
        match e {
            Fault::Version => Status::VersionNotSupported,
            Fault::Operation => Status::OperationNotSupported,
            Fault::Charset => Status::CharsetNotSupported,
            Fault::TooManyIds => Status::NotSupported,
            _ => Status::BadRequest,
        }
    }
}

// What the request asks for, or the status that it is refused with.
pub fn read(src: &[u8]) -> Result<Request, Status>
    ensures { said result ≡ answer_of src.now }
{
    Ok(read_request(src)?)
}

// The worked examples: what some requests come to, by computation from the definitions.
pub fn examples_stand()
    ensures { Examples }
{}

// A request that is accepted asks for 1 to 8 subscriptions, none twice, each from a number on.
pub fn accepted_is_sound()
    ensures { AcceptedIsSound }
{}
