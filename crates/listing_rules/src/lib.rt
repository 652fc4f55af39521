// What a listing is (document 01, 'Program `rows`'): its lines, and worked listings.
#![tactic(auto)]
