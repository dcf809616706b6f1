//! Refused calls, counted by the clearing cause.

ghost use Rattle.std.specs.Prelude.{◌≡◌, ◌+◌, ◌-◌, ◌^◌, min};

use xp_causes::clearing_cause;

/// How many call requests were refused with each clearing cause that the exchange sends (X.25 clause 5.2.4).
#[derive(Clone, Copy, Default)]
pub struct RefusedCalls {
    pub number_busy: u64,
    pub invalid_facility_request: u64,
    pub network_congestion: u64,
    pub out_of_order: u64,
    pub access_barred: u64,
    pub not_obtainable: u64,
    pub remote_procedure_error: u64,
    pub local_procedure_error: u64,
    pub reverse_charging_not_subscribed: u64,
    pub fast_select_not_subscribed: u64,
}

impl RefusedCalls {
    ghost use Rattle.std.specs.Prelude.{◌≡◌, map};
    ghost use Rattle.xp_console.specs.Refusals.{by_cause, counted};

    /// Counts a call request that was refused with this clearing cause. A cause that the exchange does not send is not counted.
    pub fn count(&mut self, cause: u8)
        ensures { by_cause self.new ≡ map (counted cause) (by_cause self.old) }
    {
        match cause {
            clearing_cause::NUMBER_BUSY => one_more(&mut self.number_busy),
            clearing_cause::INVALID_FACILITY_REQUEST => {
                one_more(&mut self.invalid_facility_request);
            }
            clearing_cause::NETWORK_CONGESTION => one_more(&mut self.network_congestion),
            clearing_cause::OUT_OF_ORDER => one_more(&mut self.out_of_order),
            clearing_cause::ACCESS_BARRED => one_more(&mut self.access_barred),
            clearing_cause::NOT_OBTAINABLE => one_more(&mut self.not_obtainable),
            clearing_cause::REMOTE_PROCEDURE_ERROR => one_more(&mut self.remote_procedure_error),
            clearing_cause::LOCAL_PROCEDURE_ERROR => one_more(&mut self.local_procedure_error),
            clearing_cause::REVERSE_CHARGING_NOT_SUBSCRIBED => {
                one_more(&mut self.reverse_charging_not_subscribed);
            }
            clearing_cause::FAST_SELECT_NOT_SUBSCRIBED => {
                one_more(&mut self.fast_select_not_subscribed);
            }
            _ => {}
        }
    }

    /// The clearing causes, each with its count.
    pub fn by_cause(&self) -> [(u8, u64); 10]
        ensures { result ≡ by_cause self.now }
    {
        [
            (clearing_cause::NUMBER_BUSY, self.number_busy),
            (
                clearing_cause::INVALID_FACILITY_REQUEST,
                self.invalid_facility_request,
            ),
            (clearing_cause::NETWORK_CONGESTION, self.network_congestion),
            (clearing_cause::OUT_OF_ORDER, self.out_of_order),
            (clearing_cause::ACCESS_BARRED, self.access_barred),
            (clearing_cause::NOT_OBTAINABLE, self.not_obtainable),
            (
                clearing_cause::REMOTE_PROCEDURE_ERROR,
                self.remote_procedure_error,
            ),
            (
                clearing_cause::LOCAL_PROCEDURE_ERROR,
                self.local_procedure_error,
            ),
            (
                clearing_cause::REVERSE_CHARGING_NOT_SUBSCRIBED,
                self.reverse_charging_not_subscribed,
            ),
            (
                clearing_cause::FAST_SELECT_NOT_SUBSCRIBED,
                self.fast_select_not_subscribed,
            ),
        ]
    }
}

fn one_more(count: &mut u64)
    ensures { count.new ≡ min (count.old + 1) (2 ^ 64 - 1) }
{
    *count = count.saturating_add(1);
}
