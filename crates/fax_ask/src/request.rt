//! What may be asked for, by the route of a path.

ghost use Rattle.std.specs.Prelude.{◌≡◌, option_copied};
ghost use Rattle.fax_ask.specs.Request.{job_posted, job_view};
ghost use Rattle.fax_ask.specs.Routes.{modem_in, number_in, posted, route_request, shown};

use crate::method::Method;
use crate::modem_name::ModemName;
use crate::routes::Route;
use crate::view::View;
use fax_job::RequestNumber;

/// What a method and a path ask for, with the number or the name that they give.
#[derive(Drop)]
pub enum Request<'a> {
    Show(View),
    Submit,
    Import,
    OnJob { job: u64, action: Action },
    Mark { modem: ModemName<'a>, down: bool },
    Next { modem: ModemName<'a> },
    OnGrant { grant: u64, kind: ReportKind },
    Floor,
    Purge,
}

/// What a path asks of a job.
#[derive(Clone, Copy, Debug, PartialEq, Eq)]
pub enum Action {
    Suspend,
    Resume,
    Kill,
    Alter,
}

/// What a path reports on a grant.
#[derive(Clone, Copy, Debug, PartialEq, Eq)]
pub enum ReportKind {
    Call,
    Page,
    Outcome,
}

impl<'a> Request<'a> {
    /// The request that a method and a route name, with the text that stands in the place of the
    /// route's parameter.
    pub(crate) fn on_route(method: Method, route: Route, id: Option<&'a str>) -> Option<Request<'a>>
        ensures { result ≡ route_request method route (option_copied id.entry) }
    {
        match method {
            Method::Get => shown(route, id),
            Method::Post => posted(route, id),
            Method::Another => None,
        }
    }
}

/// What GET names on a route.
fn shown(route: Route, id: Option<&str>) -> Option<Request<'static>>
    ensures { result ≡ shown route (option_copied id.entry) }
{
    match route {
        Route::Jobs => Some(Request::Show(View::Jobs)),
        Route::Job => Some(Request::Show(job_view(id?)?)),
        Route::Times => Some(Request::Show(View::Times { job: number(id)? })),
        Route::Modems => Some(Request::Show(View::Modems)),
        _ => None,
    }
}

/// What GET shows at `/jobs/{id}`: the newest jobs, or the job of that number.
fn job_view(id: &str) -> Option<View>
    ensures { result ≡ job_view id.now }
{
    if id == "newest" {
        return Some(View::Newest);
    }
    Some(View::Job {
        job: number(Some(id))?,
    })
}

/// What POST names at `/jobs/{id}`: a purge.
fn job_posted(id: &str) -> Option<Request<'static>>
    ensures { result ≡ job_posted id.now }
{
    if id == "purge" {
        Some(Request::Purge)
    } else {
        None
    }
}

/// What POST names on a route.
fn posted(route: Route, id: Option<&str>) -> Option<Request<'_>>
    ensures { result ≡ posted route (option_copied id.entry) }
{
    match route {
        Route::Jobs => Some(Request::Submit),
        Route::Job => job_posted(id?),
        Route::Times | Route::Modems => None,
        Route::Imports => Some(Request::Import),
        Route::OnJob(action) => Some(Request::OnJob {
            job: number(id)?,
            action,
        }),
        Route::Mark { down } => Some(Request::Mark {
            modem: modem(id)?,
            down,
        }),
        Route::Next => Some(Request::Next { modem: modem(id)? }),
        Route::OnGrant(kind) => Some(Request::OnGrant {
            grant: number(id)?,
            kind,
        }),
        Route::Floor => Some(Request::Floor),
    }
}

/// The number of a job or a grant.
fn number(id: Option<&str>) -> Option<u64>
    ensures { result ≡ number_in (option_copied id.entry) }
{
    Some(RequestNumber::read(id?.as_bytes())?.get())
}

/// The name of a modem.
fn modem(id: Option<&str>) -> Option<ModemName<'_>>
    ensures { result ≡ modem_in (option_copied id.entry) }
{
    ModemName::read(id?)
}
