//! The routes of requests, by their paths.

ghost use Rattle.std.specs.Prelude.{◌≡◌, IfOk};
ghost use Rattle.fax_ask.specs.Request.{request_of};

use crate::method::Method;
use crate::request::{Action, ReportKind, Request};
use matchit::{InsertError, MatchError, Router};
use std::alloc::{AllocError, Global};
use std::marker::Model;

/// What a path is the path of.
#[derive(Clone, Copy, Debug, PartialEq, Eq)]
pub(crate) enum Route {
    Jobs,
    Job,
    OnJob(Action),
    Times,
    Mark { down: bool },
    Modems,
    Next,
    OnGrant(ReportKind),
    Imports,
    Floor,
}

/// The pattern of each route: `{id}` is the number of a job or a grant, or the name of a modem.
static ROUTES: [(&str, Route); 16] = [
    ("/jobs", Route::Jobs),
    ("/jobs/{id}", Route::Job),
    ("/jobs/{id}/suspend", Route::OnJob(Action::Suspend)),
    ("/jobs/{id}/resume", Route::OnJob(Action::Resume)),
    ("/jobs/{id}/kill", Route::OnJob(Action::Kill)),
    ("/jobs/{id}/alter", Route::OnJob(Action::Alter)),
    ("/jobs/{id}/times", Route::Times),
    ("/modems", Route::Modems),
    ("/modems/{id}/ready", Route::Mark { down: false }),
    ("/modems/{id}/down", Route::Mark { down: true }),
    ("/modems/{id}/next", Route::Next),
    ("/grants/{id}/call", Route::OnGrant(ReportKind::Call)),
    ("/grants/{id}/page", Route::OnGrant(ReportKind::Page)),
    ("/grants/{id}/outcome", Route::OnGrant(ReportKind::Outcome)),
    ("/imports", Route::Imports),
    ("/numbers/floor", Route::Floor),
];

/// The routes of requests, in a router.
pub struct Routes {
    router: Router<Route>,
}

// By hand, so that a proof lets it go in one step.
impl Drop for Routes {
    fn drop(self) {
        let Routes { router: _ } = self;
    }
}

impl Model for Routes {
    ghost use Rattle.std.specs.Prelude.{◌≡◌};
    ghost use Rattle.matchit.specs.Rows.{RowsOf};
    ghost use Rattle.matchit.specs.Router.{RouteOf};
    ghost use Rattle.fax_ask.specs.declared.routes.Route.{Route};
    ghost use Rattle.fax_ask.specs.Routes.{table};

    ghost Value = { RowsOf (RouteOf Route) };

    ghost view = { λ routes. routes.router };

    ghost invariant = { λ routes. routes.router ≡ table };
}

impl Routes {
    ghost use Rattle.fax_ask.specs.Routes.{table};

    /// The routes of every request. The only error is want of memory.
    pub fn new(alloc: Global) -> Result<Routes, AllocError>
        ensures { IfOk result (λ routes. routes ≡ table) }
    {
        let mut router = Router::new(alloc);
        for (pattern, route) in ROUTES {
            if let Err(error) = router.insert(pattern, route) {
                // Each pattern reads, and conflicts with none before it.
                prove!(matches!(&error, InsertError::OutOfMemory));
                return Err(AllocError);
            }
        }
        Ok(Routes { router })
    }

    /// The request that a method and a path name, if they name one.
    pub(crate) fn request<'p>(&self, method: Method, path: &'p str) -> Option<Request<'p>>
        ensures { result ≡ request_of method path.now }
    {
        match self.router.at(path) {
            Ok(found) => Request::on_route(method, *found.value, found.params.get("id")),
            Err(MatchError::NotFound) => None,
        }
    }
}
