// The reader of plan files: every check in the order of the format, and only then the plan.
ghost use Rattle.std.specs.Prelude.{◌≡◌, ◌+◌, ◌*◌, ◌≤◌, Ok, OnOk, [], ◌∷◌};
ghost use Rattle.refusals.specs.Checks.{every, in_order};
ghost use Rattle.fields.specs.Records.{filled};
ghost use Rattle.plans.specs.Plan.{Ordered};
ghost use Rattle.plans.specs.Reader.{body_steps, count_checked, field_steps, line_steps, piece_steps, lines_apart, plan_after, plan_made, plan_result, plan_steps, principal_stands, rows_read};

use crate::branch::Branch;
use crate::fault::PlanFault;
use crate::layout::{Layout, Span, lay_out};
use crate::line::Line;
use crate::piece::Piece;
use crate::plan::{Plan, rows_of};
use crate::role::Role;
use crate::set::Set;
use fields::{
    BRANCHES, FieldFault, LINES, PIECES, ROLES, Record, SETS, byte, check_end, check_list, field,
    header, offset, read_list, two,
};
use orders::{Rows, RowsFault};
use refusals::must;

// The longest body that a length of two bytes can tell.
const LONGEST: u16 = 65535;

// A plan file: its bytes, and where its lists stand in them.
#[derive(Clone, Copy)]
struct PlanFile<'b> {
    bytes: &'b [u8],
    layout: Layout,
}

impl PlanFile<'_> {
    // Reads the record with a number in a list.
    fn record<T: Record>(&self, list: Span, number: u16) -> T
        ensures { result ≡ T.Record.made self.now.bytes.now (list.first + T.WIDTH * number) }
    {
        T::read(self.bytes, offset::<T>(list.first, number))
    }

    // Reads the records of a list into an array; the places behind the last one get the empty record.
    fn records<T: Record, const N: usize>(&self, list: Span) -> [T; N]
        ensures { result ≡ filled N list.count T.Record.empty (λ k. T.Record.made self.now.bytes.now (list.first + T.WIDTH * k)) }
    {
        read_list(self.bytes, list.first, list.count)
    }

    // Tells whether the principal is a role and may stand at the top.
    fn principal_stands(&self) -> bool
        ensures { result ≡ principal_stands self.now.bytes.now self.now.layout }
    {
        let layout = self.layout;
        let principal = u16::from(byte(self.bytes, layout.principal as usize));
        let role: Role = self.record(layout.roles, principal);
        principal < layout.roles.count && role.may_stand(self.record(layout.branches, 0))
    }

    // Checks the count of a list, which has `width` bytes and is within its bounds, and then each record.
    fn check_records<T: Record<Scope = Layout>>(
        &self,
        list: Span,
        width: usize,
        least: usize,
        most: usize,
    ) -> Result<(), FieldFault>
        ensures { result ≡ in_order (count_checked self.now.bytes.now list width least most ∷ every list.count (λ k. T.Record.checked self.now.bytes.now self.now.layout (list.first + T.WIDTH * k) k) ∷ []) }
    {
        let allowed = (least..=most).contains(&usize::from(list.count));
        field(self.bytes, list.at as usize, width, allowed)?;
        check_list::<T>(self.bytes, self.layout, list.first, list.count)
    }

    // The header, the branches, the roles and the principal.
    fn check_body(&self) -> Result<(), FieldFault>
        ensures { result ≡ in_order (body_steps self.now.bytes.now self.now.layout) }
    {
        let layout = self.layout;
        header(self.bytes, LONGEST)?;
        self.check_records::<Branch>(layout.branches, 1, 1, BRANCHES)?;
        self.check_records::<Role>(layout.roles, 1, 1, ROLES)?;
        field(
            self.bytes,
            layout.principal as usize,
            1,
            self.principal_stands(),
        )
    }

    // The grant lines and the take lines.
    fn check_governing(&self) -> Result<(), FieldFault>
        ensures { result ≡ in_order (line_steps self.now.bytes.now self.now.layout) }
    {
        let Layout { grants, takes, .. } = self.layout;
        self.check_records::<Line>(grants, 1, 0, LINES)?;
        self.check_records::<Line>(takes, 1, 0, LINES)
    }

    // The sets and the pieces, and nothing behind them.
    fn check_pieces(&self) -> Result<(), FieldFault>
        ensures { result ≡ in_order (piece_steps self.now.bytes.now self.now.layout) }
    {
        let Layout { sets, pieces, .. } = self.layout;
        self.check_records::<Set>(sets, 1, 0, SETS)?;
        self.check_records::<Piece>(pieces, 2, 0, PIECES)?;
        check_end(
            self.bytes,
            offset::<Piece>(pieces.first, pieces.count) as usize,
        )
    }

    // All fields, in the order of the format.
    fn check_fields(&self) -> Result<(), FieldFault>
        ensures { result ≡ in_order (field_steps self.now.bytes.now self.now.layout) }
    {
        self.check_body()?;
        self.check_governing()?;
        self.check_pieces()
    }

    // The rows of the roles are an order.
    fn check_rows(&self) -> Result<(), RowsFault>
        ensures { result ≡ rows_read self.now.bytes.now self.now.layout }
    {
        let Layout { roles, .. } = self.layout;
        let rows = rows_of(&self.records(roles));
        Rows::new(rows, byte(self.bytes, roles.at as usize))?;
        Ok(())
    }

    // No line of the list repeats the pair of an earlier one. The list fits in an array.
    #[tactic(auto, using(crate::proofs::Apart::looks_back))]
    fn check_lines(&self, list: Span) -> Result<(), PlanFault>
        requires { list.count ≤ 64 }
        ensures { result ≡ lines_apart self.now.bytes.now list }
    {
        let lines: [Line; LINES] = self.records(list);
        for (k, line) in lines[..list.count as usize].iter().enumerate() {
            let at = offset::<Line>(list.first, k as u16) as usize;
            must(!line.repeats_pair_in(&lines[..k]), PlanFault::Repeated(at))?;
        }
        Ok(())
    }

    // All checks of a plan.
    #[tactic(auto, using(crate::proofs::Apart::grants_few, crate::proofs::Apart::takes_few))]
    fn check(&self) -> Result<(), PlanFault>
        ensures { result ≡ in_order (plan_steps self.now.bytes.now self.now.layout) }
    {
        self.check_fields()?;
        self.check_rows()?;
        self.check_lines(self.layout.grants)?;
        self.check_lines(self.layout.takes)
    }

    // Writes the plan that the bytes hold into the lent place.
    #[tactic(auto, unfolding(crate::specs::Reader::plan_made))]
    fn fill(&self, into: &mut Plan)
        ensures { into.new ≡ plan_made self.now.bytes.now self.now.layout }
    {
        let bytes = self.bytes;
        let Layout {
            branches,
            roles,
            principal,
            grants,
            takes,
            sets,
            pieces,
        } = self.layout;
        *into = Plan {
            branches: self.records(branches),
            branch_count: byte(bytes, branches.at as usize),
            roles: self.records(roles),
            role_count: byte(bytes, roles.at as usize),
            principal: byte(bytes, principal as usize),
            grants: self.records(grants),
            grant_count: byte(bytes, grants.at as usize),
            takes: self.records(takes),
            take_count: byte(bytes, takes.at as usize),
            sets: self.records(sets),
            set_count: byte(bytes, sets.at as usize),
            pieces: self.records(pieces),
            piece_count: two(bytes, pieces.at as usize),
        };
    }
}

// Reads a plan file into the lent plan; a refusal leaves the plan as found. A plan that was read gives both orders.
#[tactic(auto, unfolding(crate::specs::Reader::plan_result))]
pub fn read(bytes: &[u8], into: &mut Plan) -> Result<(), PlanFault>
    ensures answer { result ≡ plan_result bytes.now }
    ensures leaves { into.new ≡ plan_after into.old bytes.now result }
    ensures ordered { OnOk result (Ordered into.new) }
{
    let layout = lay_out(bytes);
    let file = PlanFile { bytes, layout };
    file.check()?;
    file.fill(into);
    Ok(())
}
