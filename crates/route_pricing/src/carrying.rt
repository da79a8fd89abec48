// Labels carried over the streets.
ghost use Rattle.std.specs.Prelude.{◌≡◌, ◌+◌, ◌<◌, ◌≤◌, ◌≢◌, ℕ, true, false, length, slice_index, IsTrue};
ghost use Rattle.carp_base.specs.Problem.{IsVertex, IsEdgeNumber, IsReached, edge_at};
ghost use Rattle.road_network.specs.Incidence.{incident, has_end};
ghost use Rattle.route_pricing.specs.Partial.{IsGrid, between};
ghost use Rattle.route_pricing.specs.Labels.{IsLayer, CarriesOn, Passes, AreStreetsSettled, AreMarked, AreMarkedBut, AreMarkedBefore, labels_at, label_sum, is_marked, work_left, visited_at};

use crate::grid::{Grid, UNREACHED};
use crate::labels::Labels;
use road_network::far_end;

impl Grid {
    // Puts the labels of one vertex in among those of another, over a street of this length; whether those changed.
    fn pass(&self, layer: &mut [Labels], from: u32, to: u32, length: u128) -> bool
        requires layer { IsLayer self.now layer.old }
        requires from { IsVertex self.now.inst from }
        requires to { IsVertex self.now.inst to }
        requires reached { IsReached self.now.inst from → IsReached self.now.inst to × (between self.now from to ≤ length) }
        requires grid { IsGrid self.now }
        ensures on { CarriesOn self.now layer.old layer.new }
        ensures fewer { result ≡ true → label_sum layer.new < label_sum layer.old }
        ensures passes { Passes (labels_at layer.old from) length (labels_at layer.new to) }
        ensures others { (h : ℕ) → h ≢ to → labels_at layer.new h ≡ labels_at layer.old h }
        ensures still { result ≡ false → layer.new ≡ layer.old }
    {
        let old = layer[to as usize];
        let new = layer[from as usize].joined(old, length);
        if new.first < old.first || new.second < old.second {
            layer[to as usize] = new;
            return true;
        }
        false
    }

    // Passes the labels of one end of a street on to the other, which is marked where its labels change.
    fn cross(&self, layer: &mut [Labels], marks: &mut [bool], from: u32, number: u32)
        requires grid { IsGrid self.now }
        requires layer { IsLayer self.now layer.old }
        requires marks { length marks.old ≡ self.now.inst.vertices + 1 }
        requires from { IsVertex self.now.inst from }
        requires number { IsEdgeNumber self.now.inst number }
        requires there { IsTrue (has_end from (edge_at self.now.inst number)) }
        ensures on { CarriesOn self.now layer.old layer.new }
        ensures marks { length marks.new ≡ self.now.inst.vertices + 1 }
        ensures work { work_left layer.new marks.new ≤ work_left layer.old marks.old }
        ensures passed { (place : ℕ) → slice_index (incident self.now.inst from) place ≡ number → AreMarkedBefore self.now layer.old marks.old from place → AreMarkedBefore self.now layer.new marks.new from (place + 1) }
    {
        let to = far_end(&self.inst.edge(number), from);
        let length = self.lengths[number as usize - 1];
        if self.pass(layer, from, to, length) {
            marks[to as usize] = true;
        }
    }

    // Passes the labels of a vertex on over each street there.
    fn leave(&self, layer: &mut [Labels], marks: &mut [bool], from: u32)
        requires grid { IsGrid self.now }
        requires layer { IsLayer self.now layer.old }
        requires marks { length marks.old ≡ self.now.inst.vertices + 1 }
        requires from { IsVertex self.now.inst from }
        ensures on { CarriesOn self.now layer.old layer.new }
        ensures marks { length marks.new ≡ self.now.inst.vertices + 1 }
        ensures work { work_left layer.new marks.new ≤ work_left layer.old marks.old }
        ensures marked { AreMarkedBut self.now layer.old marks.old from → AreMarked self.now layer.new marks.new }
    {
        if layer[from as usize].first == UNREACHED {
            return;
        }
        for place in 0..self.net.degree(from) {
            let number = self.net.edge_at(from, place);
            self.cross(layer, marks, from, number);
        }
    }

    // Takes the mark of a vertex away, if it has one, and passes its labels on; whether it had one.
    fn visit(&self, layer: &mut [Labels], marks: &mut [bool], vertex: u32) -> bool
        requires grid { IsGrid self.now }
        requires layer { IsLayer self.now layer.old }
        requires marks { length marks.old ≡ self.now.inst.vertices + 1 }
        requires vertex { IsVertex self.now.inst vertex }
        requires marked { AreMarked self.now layer.old marks.old }
        ensures on { CarriesOn self.now layer.old layer.new }
        ensures marks { length marks.new ≡ self.now.inst.vertices + 1 }
        ensures marked { AreMarked self.now layer.new marks.new }
        ensures work { result ≡ true → work_left layer.new marks.new < work_left layer.old marks.old }
        ensures falls { work_left layer.new marks.new ≤ work_left layer.old marks.old }
        ensures still { result ≡ false → (layer.new ≡ layer.old) × (marks.new ≡ marks.old) × (is_marked marks.old vertex ≡ false) }
    {
        if !marks[vertex as usize] {
            return false;
        }
        marks[vertex as usize] = false;
        self.leave(layer, marks, vertex);
        true
    }

    // The vertex that a sweep visits at a place from 0.
    fn visited_at(&self, up: bool, place: u32) -> u32
        requires { place < self.now.inst.vertices }
        ensures value { result ≡ visited_at up self.now.inst.vertices place }
        ensures vertex { IsVertex self.now.inst result }
    {
        let vertices = self.inst.vertices();
        if up { place + 1 } else { vertices - place }
    }

    // Visits each vertex once, in rising or falling number; whether any was marked.
    fn sweep(&self, layer: &mut [Labels], marks: &mut [bool], up: bool) -> bool
        requires grid { IsGrid self.now }
        requires layer { IsLayer self.now layer.old }
        requires marks { length marks.old ≡ self.now.inst.vertices + 1 }
        requires marked { AreMarked self.now layer.old marks.old }
        ensures on { CarriesOn self.now layer.old layer.new }
        ensures marks { length marks.new ≡ self.now.inst.vertices + 1 }
        ensures marked { AreMarked self.now layer.new marks.new }
        ensures work { result ≡ true → work_left layer.new marks.new < work_left layer.old marks.old }
        ensures falls { work_left layer.new marks.new ≤ work_left layer.old marks.old }
        ensures settled { result ≡ false → AreStreetsSettled self.now layer.new }
    {
        let mut found = false;
        for place in 0..self.inst.vertices() {
            if self.visit(layer, marks, self.visited_at(up, place)) {
                found = true;
            }
        }
        found
    }

    // Carries the labels over the streets until none changes (Ford 1956, Moore 1959).
    pub(crate) fn carry(&self, layer: &mut [Labels], marks: &mut [bool])
        requires grid { IsGrid self.now }
        requires layer { IsLayer self.now layer.old }
        requires marks { length marks.old ≡ self.now.inst.vertices + 1 }
        ensures on { CarriesOn self.now layer.old layer.new }
        ensures marks { length marks.new ≡ self.now.inst.vertices + 1 }
        ensures settled { AreStreetsSettled self.now layer.new }
    {
        marks.fill(true);
        let mut up = false;
        let mut found = true;
        while found {
            up = !up;
            found = self.sweep(layer, marks, up);
        }
    }
}
