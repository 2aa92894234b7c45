//! What a message asks the desk for.
ghost use Rattle.std.specs.Prelude.{Err};
ghost use Rattle.pb_base.specs.Answers.{Answers, IfRefused};
ghost use Rattle.http_api.specs.Call.{LeadsNowhere, call_at};
ghost use Rattle.http_api.specs.Path.{path_of};
ghost use Rattle.http_api.specs.Response.{CanDeny};
ghost use Rattle.http_api.specs.Route.{Leads};
ghost use Rattle.http_api.specs.declared.denied.Denied.TheVariants.{NoPath};
ghost use Rattle.http_api.specs.declared.route.Route.{Route};

use crate::body::what_of;
use crate::denied::Denied;
use crate::path::path_of;
use crate::request::{Verb, request_of};
use crate::route::Route;
use crate::routes::Routes;
use desk_words::Call;
use http_wire::Message;
use pb_base::Fail;
use std::alloc::Global;

/// The call that one message asks for, or why it asks for none: the first of path, method, caller and body that is wrong. Who has many messages makes `Routes` once.
pub fn call_of(alloc: Global, message: &Message) -> Result<Call, Fail<Denied>>
    ensures routed { (route : Route) → Leads (path_of message.now.head.target) route
        → Answers result (call_at route message.now) }
    ensures lost { LeadsNowhere (path_of message.now.head.target) → Answers result (Err NoPath) }
    ensures deniable { IfRefused result (λ denied. CanDeny denied message.now.head.target) }
{
    let routes = Routes::new(alloc)?;
    routes.call_of(alloc, message)
}

impl Routes {
    /// The call that a message asks for, or why it asks for none: the first of path, method, caller and body that is wrong.
    pub fn call_of(&self, alloc: Global, message: &Message) -> Result<Call, Fail<Denied>>
        ensures routed { (route : Route) → Leads (path_of message.now.head.target) route
            → Answers result (call_at route message.now) }
        ensures lost { LeadsNowhere (path_of message.now.head.target) → Answers result (Err NoPath) }
        ensures deniable { IfRefused result (λ denied. CanDeny denied message.now.head.target) }
    {
        match self.find(path_of(message.head.target.as_slice())) {
            Some(route) => call_at(alloc, route, message),
            None => Err(Fail::Refused(Denied::NoPath)),
        }
    }
}

// The call of a message whose path leads to this route.
fn call_at(alloc: Global, route: Route, message: &Message) -> Result<Call, Fail<Denied>>
    ensures { Answers result (call_at route message.now) }
{
    let verb = Verb::of(alloc, message.head.method.as_slice());
    let Some(request) = request_of(route, verb) else {
        return Err(Fail::Refused(Denied::WrongMethod));
    };
    let Some(caller) = message.head.caller else {
        return Err(Fail::Refused(Denied::BadCaller));
    };
    let what = what_of(alloc, request, &message.body)?;
    Ok(Call { caller, what })
}
