//! The table of the paths, kept by a router.
ghost use Rattle.std.specs.Prelude.{◌≡◌, IfErr, IfOk};
ghost use Rattle.matchit.specs.declared.error.InsertError.TheVariants as insert;
ghost use Rattle.routes.specs.Table.{place_by, route_in, table};
ghost use Rattle.routes.specs.Paths.{place_at, place_in};
ghost use Rattle.routes.specs.Calls.{call_of};

use crate::call::{Call, NoCall, call_at};
use crate::place::{Place, Route, place_by};
use matchit::{InsertError, Router};
use std::alloc::Global;
use std::marker::Model;
use units::OutOfMemory;

/// The paths that a charging function answers.
#[derive(Drop)]
pub struct Routes {
    router: Router<Route>,
}

impl Model for Routes {
    ghost use Rattle.std.specs.Prelude.{⊤, ◌≡◌};
    ghost use Rattle.routes.specs.Table.{table};

    ghost Value = { ⊤ };

    ghost view = { λ _. tt };

    ghost invariant = { λ routes. routes.router ≡ table };
}

// No two of the routes conflict.
fn router(alloc: Global) -> Result<Router<Route>, InsertError>
    ensures table { IfOk result (λ router. router ≡ table) }
    ensures memory { IfErr result (λ why. why ≡ insert.OutOfMemory) }
{
    let mut router = Router::new(alloc);
    router.insert("/nchf-convergedcharging/v3/chargingdata", Route::Sessions)?;
    router.insert(
        "/nchf-convergedcharging/v3/chargingdata/{reference}/update",
        Route::Update,
    )?;
    router.insert(
        "/nchf-convergedcharging/v3/chargingdata/{reference}/release",
        Route::Release,
    )?;
    router.insert(
        "/nchf-spendinglimitcontrol/v1/subscriptions",
        Route::Subscriptions,
    )?;
    router.insert(
        "/nchf-spendinglimitcontrol/v1/subscriptions/{id}",
        Route::Subscription,
    )?;
    Ok(router)
}

impl Routes {
    /// The table of the five paths.
    ///
    /// # Errors
    ///
    /// Memory runs out.
    pub fn new(alloc: Global) -> Result<Routes, OutOfMemory> {
        match router(alloc) {
            Ok(router) => Ok(Routes { router }),
            Err(InsertError::OutOfMemory) => Err(OutOfMemory),
            Err(_) => unreachable!(),
        }
    }

    fn route_in(&self, path: &str) -> Option<Route>
        ensures { result ≡ route_in path.now }
    {
        match self.router.at(path) {
            Ok(found) => Some(*found.value),
            Err(_) => None,
        }
    }

    fn place_in(&self, path: &str) -> Option<Place>
        ensures { result ≡ place_in path.now }
    {
        match self.route_in(path) {
            Some(route) => Some(place_by(route, path.as_bytes())),
            None => None,
        }
    }

    /// The place that a path names; its query is read past, and nothing is decoded.
    pub fn place_at(&self, path: &str) -> Option<Place>
        ensures { result ≡ place_at path.now }
    {
        match path.split_once('?') {
            Some((before, _)) => self.place_in(before),
            None => self.place_in(path),
        }
    }

    /// The call that a method and a path are; the path is looked at first.
    ///
    /// # Errors
    ///
    /// [`NoCall::NoPath`] exactly where the path names nothing, then [`NoCall::NoMethod`] exactly where what it names does not
    /// take the method.
    pub fn call_of(&self, method: &[u8], path: &str) -> Result<Call, NoCall>
        ensures { result ≡ call_of method.now path.now }
    {
        match self.place_at(path) {
            Some(place) => match call_at(method, place) {
                Some(call) => Ok(call),
                None => Err(NoCall::NoMethod),
            },
            None => Err(NoCall::NoPath),
        }
    }
}
