// Laws alone: the table of a made-up chain, and what chainreport prints for its file. See specs/LoadReport.
#![tactic(auto)]
