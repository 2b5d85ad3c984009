// 0x48 service: a type and two names.
ghost use Rattle.std.specs.Prelude.{◌≡◌};
ghost use Rattle.layout.specs.Refusal.{told};
ghost use Rattle.texts.specs.Service.{fields, service};

use layout::body::any;
use layout::texts::two_texts;
use layout::{Part, Refusal};
use wire::numbers::byte_at;

#[derive(Clone, Copy)]
pub struct Service {
    pub service_type: u8,
    pub service_provider_name: Part,
    pub service_name: Part,
}

#[tactic(auto, unfolding(crate::specs::Service::fields))]
fn fields_of(b: &[u8]) -> Result<Service, Refusal>
    ensures { told result ≡ fields b.now }
{
    let names = two_texts(b, 1)?;
    Ok(Service {
        service_type: byte_at(b, 0),
        service_provider_name: names.first,
        service_name: names.second,
    })
}

#[tactic(auto, unfolding(crate::specs::Service::service))]
pub fn read(s: &[u8]) -> Result<Service, Refusal>
    ensures { told result ≡ service s.now }
{
    fields_of(any(s, 0x48)?)
}
