// The check, the allele call and the panel on the tables of the blocks.
use crate::answer::Answer;
use crate::columns;
use crate::columns::{Column, Columns};
use meaning::columns::Lent;

impl Columns {
    // Tables 1 to 4 as they are lent, with the populations in cells of their own.
    fn lent<'a>(&'a self, stocks: &'a mut [u16]) -> Lent<'a> {
        Lent {
            time: self.column(Column::Time),
            birth: self.column(Column::Birth),
            population: cases::narrow(self.column(Column::Population), stocks),
            left: self.column(Column::Left),
            right: self.column(Column::Right),
            parent: self.column(Column::Parent),
            child: self.column(Column::Child),
            position: self.column(Column::Position),
            ancestral: self.column_states(Column::Ancestral),
            site: self.column(Column::Site),
            node: self.column(Column::Node),
            derived: self.column_states(Column::Derived),
        }
    }

    // The check of the tables.
    pub fn check(&self) -> Answer {
        let mut stocks = [0u16; columns::NODES];
        checker::check(
            self.chromosome(),
            self.lent(&mut stocks),
            self.column(Column::Samples),
        )
        .into()
    }

    // The allele of a birth number at a site row.
    pub fn allele(&self, site: u32, birth: u32) -> Answer {
        let mut stocks = [0u16; columns::NODES];
        alleles::allele(self.chromosome(), self.lent(&mut stocks), site, birth).into()
    }

    // The panel of a list of site rows and a list of birth numbers.
    pub fn panel(
        &self,
        sites: &[u32],
        fish: &[u32],
        states: &mut [u8],
        flags: &mut [u8],
    ) -> Answer {
        let mut stocks = [0u16; columns::NODES];
        panel::alleles(
            self.chromosome(),
            self.lent(&mut stocks),
            sites,
            fish,
            states,
            flags,
        )
        .into()
    }
}
