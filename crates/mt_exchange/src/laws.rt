//! Laws of what is shown of a run. The functions here do nothing, and their contracts are the laws.

ghost use Rattle.mt_exchange.specs.Retold.{AnswersAreRetold, BegunIsRetold, CopiesAreRetold, DropsAreRetold, ReportsAreRetold, ResendStepsAreRetold, ShownTellsTheRest, TakenOnItsExchange, WaitingIsRetold};
ghost use Rattle.mt_exchange.specs.Shown.{ArrivalsAreShown, MessagesAreShown, MoreIsShown, RunsGoOn};

/// What is shown of a run has all that came and all that was sealed, and what happens once more is shown behind the rest.
pub fn shown_runs()
    ensures arrivals { ArrivalsAreShown }
    ensures messages { MessagesAreShown }
    ensures more { MoreIsShown }
    ensures run_more { RunsGoOn }
{}

/// What is shown of a run tells what is open, owed and awaited in it, but for the payloads that are kept to be sent later. An answer that
/// is refused as too long is the exception: it leaves a request unanswered, and nothing shows that.
pub fn runs_are_retold()
    ensures begun { BegunIsRetold }
    ensures waiting { WaitingIsRetold }
    ensures answers { AnswersAreRetold }
    ensures copies { CopiesAreRetold }
    ensures reports { ReportsAreRetold }
    ensures resends { ResendStepsAreRetold }
    ensures drops { DropsAreRetold }
{}

/// So what is shown, with what is still to be sent, determines the open exchanges and the id that the node's next one tries first.
pub fn shown_tells_the_rest()
    ensures { ShownTellsTheRest }
{}

/// What a fresh message is is said of the exchange that its header names.
pub fn taken_on_its_exchange()
    ensures { TakenOnItsExchange }
{}
