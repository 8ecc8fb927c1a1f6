//! What a provisional response makes known.
ghost use Rattle.std.specs.Prelude.{◌≡◌};
ghost use Rattle.calls.specs.Effects.{news_of};

use calls::{News, Response, Told};
use causes::{RINGING, SESSION_PROGRESS};

/// The news of a provisional response, which is told once, and not after ALERTING.
pub(crate) fn news_of(response: Response, told: Told) -> Option<News>
    ensures news_by_status_and_media { result ≡ news_of response.status response.media told }
{
    match response.status {
        _ if told.alerting => None,
        RINGING => Some(News::Alerting),
        181..=SESSION_PROGRESS if response.media => (!told.inband).then_some(News::InBand),
        181..=SESSION_PROGRESS => (!told.interworking && !told.inband).then_some(
            News::Interworking,
        ),
        _ => None,
    }
}
