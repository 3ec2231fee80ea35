//! The lines of services.

ghost use Rattle.std.specs.Prelude.{◌≡◌, ◌++◌, OnOk, codes, string_bytes};
ghost use Rattle.std.specs.List.{flat_map};
ghost use Rattle.ipx_tables.specs.Listing.{listed_key};
ghost use Rattle.ipx_tables.specs.Service.{service_key_cmp};
ghost use Rattle.ipx_tables.specs.Sorted.{IsRising};
ghost use Rattle.ipx_inspect.specs.ShowLine.{address_text, name_text, word_text};
ghost use Rattle.ipx_table_dump.specs.StillPresent.{is_among_best};
ghost use Rattle.ipx_table_dump.specs.TableText.{service_lines, service_offer_line};

use crate::valid_offers::is_among_best;
use crate::words::{
    put_address, put_head, put_heard, put_name, put_short, put_source, seconds_since,
};
use ipx_tables::{Offer, ServiceKey, ServiceMetric, Source};
use ipx_wire::Address;
use std::alloc::AllocError;

/// A service that a neighbour advertised.
pub type ServiceOffer = Offer<ServiceKey, ServiceMetric>;

/// The type, the name and the address of a service.
fn put_place(text: &mut String, key: &ServiceKey, at: Address) -> Result<(), AllocError>
    ensures { OnOk result (string_bytes text.new ≡ string_bytes text.old
        ++ (word_text key.now.kind ++ (codes " " ++ (name_text key.now.name
        ++ (codes " at " ++ address_text at))))) }
{
    put_short(text, key.kind)?;
    text.push_str(" ")?;
    put_name(text, &key.name)?;
    text.push_str(" at ")?;
    put_address(text, at)
}

fn put_service(
    text: &mut String,
    best: bool,
    now: u64,
    offer: &ServiceOffer,
) -> Result<(), AllocError>
    ensures { OnOk result
        (string_bytes text.new ≡ string_bytes text.old ++ service_offer_line best now offer.now) }
{
    put_place(text, &offer.key, offer.metric.at)?;
    put_source(text, offer.source)?;
    let hops = offer.metric.hops;
    write!(text, " hops {hops}")?;
    put_heard(text, best, seconds_since(now, offer.heard))
}

/// The lines of services that neighbours advertised.
fn put_offers(
    text: &mut String,
    bests: &[(ServiceKey, Source, ServiceMetric)],
    now: u64,
    offers: &[ServiceOffer],
) -> Result<(), AllocError>
    requires { IsRising service_key_cmp listed_key bests.now }
    ensures { OnOk result (string_bytes text.new ≡ string_bytes text.old ++ flat_map
        (λ o. service_offer_line (is_among_best service_key_cmp bests.now o) now o) offers.now) }
{
    for offer in offers {
        put_service(text, is_among_best(bests, offer), now, offer)?;
    }
    Ok(())
}

/// Appends the section of services to a text.
pub fn put_services(
    text: &mut String,
    now: u64,
    bests: &[(ServiceKey, Source, ServiceMetric)],
    offers: &[ServiceOffer],
) -> Result<(), AllocError>
    requires { IsRising service_key_cmp listed_key bests.now }
    ensures { OnOk result (string_bytes text.new
        ≡ string_bytes text.old ++ service_lines now bests.now offers.now) }
{
    put_head(text, "services", offers.len())?;
    put_offers(text, bests, now, offers)
}
